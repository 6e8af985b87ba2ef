//! Worked lists as lines of text: a dictionary, the words of a list, and what is seen of it.

use crate::dictionaries::dictionary_named;

/// Frames, and how they stand to the dictionary.
pub const FRAMES: &str = "\
    calls: =>\n\
    calls: flag call flag => \
        8 49 frame 108300fde5 station 16 type 0; pending 8 49 station 16 type 0\n\
    calls: flag call flag reply flag => \
        8 49 frame 108300fde5 station 16 type 0; \
        57 98 frame 108380f561 station 16 type 128, answered 8 49 station 16 type 0\n\
    calls: flag notice flag => 8 50 frame ff83095a3b station 255 type 9\n\
    calls: flag call-to-all flag => 8 50 frame ff83009ba6 station 255 type 0\n\
    calls: flag call flag idle => \
        8 49 frame 108300fde5 station 16 type 0; 57 72 idle; \
        pending 8 49 station 16 type 0\n\
    calls: flag call flag call flag short flag => \
        8 49 frame 108300fde5 station 16 type 0; \
        57 98 frame 108300fde5 station 16 type 0, missing 8 49 station 16 type 0; \
        106 130 short, spoilt 57 98 station 16 type 0\n\
    calls: flag call flag idle flag type-254 flag => \
        8 49 frame 108300fde5 station 16 type 0; 57 72 idle; \
        80 122 frame 1083fe0cfb station 16 type 254 unknown, \
        missing 8 49 station 16 type 0, stray\n\
    calls: flag reply flag => 8 49 frame 108380f561 station 16 type 128, stray\n\
    calls: flag untyped flag control-19 flag => \
        8 40 frame 1083452c station 16 untyped; \
        48 80 frame 1013ccb8 station 16 control 19\n\
    within: flag call flag reply flag => \
        8 49 frame 108300fde5 station 16 type 0; \
        57 98 frame 108380f561 station 16 type 128, answered 8 49 station 16 type 0\n\
    within: flag call flag flag reply flag => \
        8 49 frame 108300fde5 station 16 type 0; \
        65 106 frame 108380f561 station 16 type 128, answered 8 49 station 16 type 0\n\
    within: flag call flag flag flag reply flag => \
        8 49 frame 108300fde5 station 16 type 0; \
        73 114 frame 108380f561 station 16 type 128, late 8 49 station 16 type 0\n\
    calls: flag call flag flag flag reply flag => \
        8 49 frame 108300fde5 station 16 type 0; \
        73 114 frame 108380f561 station 16 type 128, answered 8 49 station 16 type 0\n\
    polls: flag type-1 flag => 8 48 frame 10830174f4 station 16 type 1 length";

/// Flags alone, damage, aborts and idles.
pub const DAMAGE: &str = "\
    calls: flag =>\n\
    calls: 011111101111110 =>\n\
    calls: 1111110 call flag =>\n\
    calls: 1111110 1111110 =>\n\
    calls: idle => 0 15 idle\n\
    calls: flag 00011111 flag => 8 16 unstuffed\n\
    calls: flag short flag => 8 32 short\n\
    calls: flag short 00000000 flag => 8 40 fcs\n\
    calls: flag short 000000000 flag => 8 41 unaligned\n\
    calls: flag short 0000000000000000 flag => 8 48 fcs\n\
    calls: flag short short flag => 8 56 overlong\n\
    calls: flag short short 11111 flag => 8 61 unstuffed\n\
    calls: flag short short 1111111 => 8 56 abort\n\
    calls: flag 00001000 1111111 => 8 16 abort\n\
    calls: flag 00001000 1111111 11111111 => 8 16 abort; 16 31 idle\n\
    calls: flag 00001000 11000001 10000000 101111101 10100111 flag => 8 49 fcs\n\
    calls: flag 00001000 11000001 00000000 10100111 101111101 flag => 8 49 fcs\n\
    calls: flag 00001 => begun 8 13";

/// What a line of a table says.
#[derive(Drop)]
pub struct Row<'a> {
    /// The text of its dictionary.
    pub dictionary: &'static str,
    /// The words of its bits.
    pub words: &'a str,
    /// What is seen of the bits, and what is open or pending at their end.
    pub want: &'a str,
}

/// Reads a line such as `calls: flag call flag => 8 49 frame ..`.
pub fn row_of(line: &str) -> Option<Row<'_>> {
    let (list, want) = line.split_once("=>")?;
    let (name, words) = list.split_once(':')?;
    Some(Row {
        dictionary: dictionary_named(name),
        words,
        want: want.trim(),
    })
}

/// What a line of a table of two lines says.
#[derive(Drop)]
pub struct PairRow<'a> {
    /// The words of the bits of either line.
    pub first: &'a str,
    pub second: &'a str,
    /// What is seen of the bits.
    pub want: &'a str,
    /// What stands at their end.
    pub standing: &'a str,
}

/// Reads a line such as `flag call flag | flag => 8 49 frame .. @ pending ..`.
pub fn pair_row_of(line: &str) -> Option<PairRow<'_>> {
    let (lists, rest) = line.split_once("=>")?;
    let (first, second) = lists.split_once('|')?;
    let (want, standing) = rest.split_once('@')?;
    Some(PairRow {
        first,
        second,
        want: want.trim(),
        standing: standing.trim(),
    })
}
