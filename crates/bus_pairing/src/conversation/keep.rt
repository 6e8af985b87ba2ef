//! The history.

ghost use Rattle.std.specs.Prelude.{◌≡◌, ◌+◌, ◌≤◌, ◌<◌, ◌^◌, [], ◌∷◌, ◌++◌, length, map, slice_set};
ghost use Rattle.circular_buffer.specs.Buffer.{keep_last};
ghost use Rattle.bus_line.specs.Limits.{most_octets};
ghost use Rattle.bus_pairing.specs.History.{kept_pair};
ghost use Rattle.bus_pairing.specs.declared.pair_kept.PairKept.{PairKept};

use crate::conversation::Conversation;
use crate::kept::Kept;
use crate::line::kept_line;
use crate::pair_kept::PairKept;
use bus_bits::Span;
use bus_line::{CopyCount, Line};
use circular_buffer::HeapCircularBuffer;

/// Where one frame more is to lie: behind the others, where a full ring gives up its oldest, or in place of the only
/// one that there is room for.
#[inline(always)]
fn next_place(ring: &mut HeapCircularBuffer<PairKept>) -> usize
    requires { 1 ≤ ring.old.capacity }
    ensures inside { result < length ring.new.items }
    ensures items { (frame : PairKept) →
        slice_set ring.new.items result frame ≡ keep_last ring.old.capacity (ring.old.items ++ frame ∷ []) }
    ensures capacity { ring.new.capacity ≡ ring.old.capacity }
{
    if ring.capacity() == 1 && !ring.is_empty() {
        return 0;
    }
    ring.push_back(PairKept {
        line: Line::First,
        kept: Kept::blank(),
    });
    ring.len() - 1
}

/// Copies a frame behind the others, in place of the oldest where the ring is full.
#[inline(always)]
fn append(
    ring: &mut HeapCircularBuffer<PairKept>,
    line: Line,
    span: Span,
    octets: &[u8],
    copied: &mut CopyCount,
)
    requires depth { 1 ≤ ring.old.capacity }
    requires fits { length octets.now ≤ most_octets }
    requires room { copied.old + length octets.now < 2 ^ 64 }
    ensures items { map kept_pair ring.new.items
        ≡ keep_last ring.old.capacity
        (map kept_pair ring.old.items ++ record { line = line; span = span; octets = octets.now } ∷ []) }
    ensures capacity { ring.new.capacity ≡ ring.old.capacity }
    ensures copied { copied.new ≡ copied.old + length octets.now }
{
    let place = next_place(ring);
    match ring.get_mut(place) {
        Some(frame) => {
            frame.line = line;
            frame.kept.copy_frame(span, octets, copied);
        }
        None => unreachable!(),
    }
}

impl Conversation {
    ghost use Rattle.bus_pairing.specs.History.{line_of};

    /// Copies a frame into the history, in place of the oldest where that is full.
    #[inline(always)]
    pub(crate) fn keep(&mut self, line: Option<Line>, span: Span, octets: &[u8])
        requires fits { length octets.now ≤ most_octets }
        requires copied { self.old.copied + length octets.now < 2 ^ 64 }
        requires handled { self.old.handled + 1 < 2 ^ 64 }
        ensures history { self.new.history
            ≡ keep_last self.old.depth
            (self.old.history ++ record { line = line_of line; span = span; octets = octets.now } ∷ []) }
        ensures kept { self.new
            ≡ record self.old {
              history = self.new.history;
              copied = self.old.copied + length octets.now;
              handled = self.old.handled + 1;
            } }
    {
        append(
            &mut self.history,
            kept_line(line),
            span,
            octets,
            &mut self.copied,
        );
        self.spent.tick_handled();
    }
}
