//! The ends of the help texts.

/// How lines are chosen by their kind.
pub const KIND: &str = "\
Only lines of this kind: frame, damaged, overlong, abort, idle, stray,
answered, missing, spoilt, late, open or pending";

/// Of the program.
pub const WHOLE: &str = "\
Without words it does what `list --bits` does. It opens no file: a capture, or lines to
encode, are read from standard input, and a dictionary is given as text.

A text capture has the octets 0 and 1 for the bits, in the order received; spaces, tabs and
line ends are skipped. A packed capture begins with the eight octets TS2BITS1 and the number
of its bits as eight octets, the lowest first; then come the bits, eight in each octet, the
first of them lowest, and the bits of the last octet that are not used are 0.

A capture of two lines, for --two, has two bits at each place: the first of the controller's
line, the second of the answering line. In a text this is one octet, 0 to 3: the first bit, plus
2 where the second is 1. A packed one begins with TS2BITS2, and has pairs where the other has
bits: their number, then four in each octet, the first of them lowest, and the first bit of
each pair below the second.

A capture for --arrivals is of two lines with a clock each, and has their bits as they arrived.
In a text 0 and 1 are bits of the controller's line, o and i of the answering line. A packed
one begins with TS2BITS3, and has a pair for each bit: the bit, and above it 1 on the second.

Output goes to standard output, faults to standard error. The status is 0, or 1 where `check`
found a damaged or overlong piece or a command that is missing, spoilt or late, or 2 for any
fault.

Example:
  port1 list --bits < capture.bits

See also: port1(1)";

/// Of `list`.
pub const LIST: &str = "\
Reads a capture from standard input and writes a line as soon as it is decided: the first
place, the place past the last bit, and what is there. Places count bits.
  frame HEX                 a frame with a good check, its octets and check; with a dictionary
                            also what its head says: `station A type T NAME`, `unknown` or
                            `length` in place of the name, `control C`, or `untyped`
  damaged CAUSE             a piece that is no frame: unstuffed, short, unaligned or fcs
  overlong, abort, idle     a piece that is too long, one cut off by ones, a silent line
  answered, missing, spoilt, late station A type T
                            what became of a command that waits for an answer
  stray station A type T    a frame of type 128 or more that answers no command
  open, pending             at the end: a piece not yet closed, a command still waiting
A line without a station or type is left out where --station or --type asks for one. Without
a dictionary no type is known: no command waits, and strays have no line.

With --two or --arrivals each line of text begins with 1 or 2, the line of the bus that it is
about. Commands wait on the first and answers come on the second, so lines with answered,
missing, spoilt, late and pending begin with 1. A place counts pairs of bits, and is the same on
both. With --arrivals it counts bits of the first line, and a bit of the second has the place of
the last one before it. Where N places bring no bit of the second line (--rest N), fifteen 1s are
put in, unless it rests: they end what a station broke off. An abort or idle of this line may be
made of them; --rest 0 lists without.

The status is 0, or 2 for any fault, reported on standard error, after the lines before it.

Likely causes of faults:
  capture: wrong magic        the capture is text: add --bits; or --two is missing, or is given
                              for a capture of one line
  capture: octet 0 is no bit  the capture is packed: leave out --bits
  capture: octet N is no bit  that octet is 2 or 3, for two lines: add --two
  dictionary: not TOML        a path in place of the text: write --dict \"$(cat FILE)\"
  write failed                the reader of the pipe has gone, as `head` does

Example:
  port1 list --bits --dict \"$(cat cabinet.toml)\" --station 16 < capture.bits

See also: port1(1)";

/// Of `check`.
pub const CHECK: &str = "\
Reads a capture from standard input to its end. Then it writes how many frames, damaged and
overlong pieces, aborts, idle lines and strays there were, how many commands were answered,
missing, spoilt and answered late, these four again for each station that has any, and the last
frames with their places, the oldest first. Where the capture has a fault, nothing is written.
Without a dictionary no command waits, and every frame of type 128 or more counts as a stray.

With --two or --arrivals the counts are those of both lines together, and the 1 or 2 after
`last` is the line of the frame.

The status is 0; 1 where anything was damaged, overlong, missing, spoilt or late; 2 for any
fault, reported on standard error. It is 0 with aborts, idle lines and strays, with a piece that
is open or a command that waits at the end, and for an empty capture: look at the counts, and at
what `list --kind open` and `list --kind pending` write.

Likely causes of faults:
  capture: wrong magic        the capture is text: add --bits; or --two is missing, or is given
                              for a capture of one line
  capture: octet 0 is no bit  the capture is packed: leave out --bits
  capture: octet N is no bit  that octet is 2 or 3, for two lines: add --two
  dictionary: not TOML        a path in place of the text: write --dict \"$(cat FILE)\"
  write failed                the reader of the pipe has gone, as `head` does

Example:
  port1 check --dict \"$(cat cabinet.toml)\" < capture.ts2 && echo all is well

See also: port1(1)";

/// Of `show`.
pub const SHOW: &str = "\
Reads no input. It writes the octets and whether their check is good, then what the head says
by the dictionary, and, for a frame that the dictionary has, the place and name of each named
bit that is 1. A frame has 4 to 258 octets; digits are of either case.

The status is 0, also where the check is bad, or 2 for any fault, reported on standard error.

Example:
  port1 show --dict \"$(cat cabinet.toml)\" 108300fde5

See also: port1(1)";

/// Of `encode`.
pub const ENCODE: &str = "\
Reads lines from standard input: `flag`, `idle`, or `frame` and the octets from the address
through the information, in hexadecimal. For each it writes a line of the bits 0 and 1 that a
sender puts on the line: a flag, fifteen ones, or the frame with its check and its inserted 0s
between flags, of which the first is left out after a flag or a frame. Empty lines are skipped.

The status is 0, or 2 for any fault, reported on standard error, after the lines before it.

Example:
  printf 'frame 108300\\nidle\\n' | port1 encode

See also: port1(1)";
