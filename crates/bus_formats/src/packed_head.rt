//! The heads of packed captures, of one line and of two, with one clock or a clock each.

ghost use Rattle.std.specs.Prelude.{◌≡◌, MatchResult, Some, None};
ghost use Rattle.bus_formats.specs.Packed.{head_bits, head_fault_by, head_fault, pair_head_fault, head_fault_of};
ghost use Rattle.bus_formats.specs.Packed.{arrival_head_fault};

/// How the head of one line begins.
const MAGIC: &[u8; 8] = b"TS2BITS1";

/// How the head of two lines begins.
const PAIR_MAGIC: &[u8; 8] = b"TS2BITS2";

/// How the head of two lines with a clock each begins.
const ARRIVAL_MAGIC: &[u8; 8] = b"TS2BITS3";

/// The highest count of bits, of pairs or of arrivals.
const MOST_BITS: u64 = 1 << 60;

/// Why sixteen octets are no head.
#[derive(Clone, Copy, Debug, PartialEq, Eq)]
pub enum HeadFault {
    /// They do not begin with the letters of their form: `TS2BITS1` for one line, `TS2BITS2` for two
    /// with one clock, and `TS2BITS3` for two with a clock each.
    Magic,
    /// They count more than 2^60 bits, pairs or arrivals.
    TooMany,
}

/// What the head of a packed capture says.
#[derive(Clone, Copy, Debug, PartialEq, Eq)]
pub struct PackedHead {
    /// How many bits follow.
    pub bits: u64,
}

impl PackedHead {
    /// Reads a head: the letters `TS2BITS1`, and the number of bits, its lowest octet first.
    pub fn read(head: &[u8; 16]) -> Result<Self, HeadFault>
        ensures { MatchResult result
            (λ read. (head_fault head.now ≡ None) × (read.bits ≡ head_bits head.now))
            (λ fault. head_fault head.now ≡ Some (head_fault_of fault)) }
    {
        Ok(PackedHead {
            bits: read_count(head, MAGIC)?,
        })
    }
}

/// What the head of a packed capture of two lines says.
#[derive(Clone, Copy, Debug, PartialEq, Eq)]
pub struct PairHead {
    /// How many pairs of bits follow.
    pub pairs: u64,
}

impl PairHead {
    /// Reads a head: the letters `TS2BITS2`, and the number of pairs, its lowest octet first.
    pub fn read(head: &[u8; 16]) -> Result<Self, HeadFault>
        ensures { MatchResult result
            (λ read. (pair_head_fault head.now ≡ None) × (read.pairs ≡ head_bits head.now))
            (λ fault. pair_head_fault head.now ≡ Some (head_fault_of fault)) }
    {
        Ok(PairHead {
            pairs: read_count(head, PAIR_MAGIC)?,
        })
    }
}

/// What the head of a packed capture of two lines with a clock each says.
#[derive(Clone, Copy, Debug, PartialEq, Eq)]
pub struct ArrivalHead {
    /// How many bits arrive.
    pub arrivals: u64,
}

impl ArrivalHead {
    /// Reads a head: the letters `TS2BITS3`, and the number of arrivals, its lowest octet first.
    pub fn read(head: &[u8; 16]) -> Result<Self, HeadFault>
        ensures { MatchResult result
            (λ read. (arrival_head_fault head.now ≡ None) × (read.arrivals ≡ head_bits head.now))
            (λ fault. arrival_head_fault head.now ≡ Some (head_fault_of fault)) }
    {
        Ok(ArrivalHead {
            arrivals: read_count(head, ARRIVAL_MAGIC)?,
        })
    }
}

/// What a head counts that is to begin with these letters.
fn read_count(head: &[u8; 16], letters: &[u8; 8]) -> Result<u64, HeadFault>
    ensures { MatchResult result
        (λ bits. (head_fault_by letters.now head.now ≡ None) × (bits ≡ head_bits head.now))
        (λ fault. head_fault_by letters.now head.now ≡ Some (head_fault_of fault)) }
{
    if !head.starts_with(letters) {
        return Err(HeadFault::Magic);
    }
    let bits = count(head);
    if bits > MOST_BITS {
        return Err(HeadFault::TooMany);
    }
    Ok(bits)
}

fn count(head: &[u8; 16]) -> u64
    ensures { result ≡ head_bits head.now }
{
    let mut octets = [0; 8];
    octets.copy_from_slice(&head[8..]);
    u64::from_le_bytes(octets)
}
