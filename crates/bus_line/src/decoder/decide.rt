//! What a bit after six ones or fourteen decides.

ghost use Rattle.std.specs.Prelude.{◌≤◌, ◌<◌, ◌+◌, ◌-◌, ◌*◌, ◌≡◌, List, ℕ};

use crate::cause::Cause;
use crate::decoder::ended_mark::{EndedMark, ended_mark};
use crate::decoder_words::{DecoderWords, NEVER};
use crate::event::{Event, EventKind};
use crate::frame_buffer::FrameBuffer;
use bus_bits::Span;
use bus_fcs::Check;

impl DecoderWords {
    ghost use Rattle.bus_line.specs.Words.{IsDecoder, AreDecoderWords, state};
    ghost use Rattle.bus_line.specs.Internal.AdvancesTo.{Aborts, Closes, ClosesAs, DecidesLast};

    /// Finds whether the newest bit ends a flag, or is the seventh or the fifteenth one of a run, and
    /// returns what that decides.
    #[inline(always)]
    pub(crate) fn decide<C: Check, F: FrameBuffer>(
        &mut self,
        check: &mut C,
        frame: &mut F,
    ) -> Option<Event>
        requires sound { IsDecoder self.old (F.octets frame.old) }
        requires some { self.old.origin < self.old.place }
        ensures decides { DecidesLast C.check (state self.old check.old (F.octets frame.old)) result
            (state self.new check.new (F.octets frame.new)) }
        ensures sound { IsDecoder self.new (F.octets frame.new) }
    {
        // All bits of the mark have been taken, so no subtraction saturates.
        let place = self.place;
        match ended_mark(self.last_bits, place - 1 - self.origin) {
            EndedMark::FlagMark => {
                let event = self.closed(check, frame, place - 8);
                self.count_piece::<C>();
                self.settles_at = place + 8;
                event
            }
            EndedMark::AbortMark => {
                let event = self.aborted(place.saturating_sub(7));
                self.settles_at = NEVER;
                event
            }
            EndedMark::IdleMark => Some(Event {
                kind: EventKind::Idle,
                span: Span {
                    first: place.saturating_sub(15),
                    past: place,
                },
            }),
            EndedMark::Other => None,
        }
    }

    /// The piece that a flag at `past` closes, if it is not empty. The last octets of a frame are stored.
    #[inline(always)]
    fn closed<C: Check, F: FrameBuffer>(
        &self,
        check: &mut C,
        frame: &mut F,
        past: u64,
    ) -> Option<Event>
        requires sound { IsDecoder self.now (F.octets frame.old) }
        ensures closes { Closes C.check (state self.now check.old (F.octets frame.old)) (F.octets frame.new) past
            result }
        ensures sound { IsDecoder self.now (F.octets frame.new) }
    {
        let first = self.first_or_never();
        if first >= past {
            return None;
        }
        Some(Event {
            kind: self.class(check, frame),
            span: Span { first, past },
        })
    }

    /// The piece that an abort mark at `past` ends, if it is not empty.
    fn aborted(&self, past: u64) -> Option<Event>
        requires within { AreDecoderWords self.now }
        requires past { past ≤ self.now.place }
        ensures { Aborts self.now past result }
    {
        let first = self.first_or_never();
        if first >= past {
            return None;
        }
        Some(Event {
            kind: EventKind::Abort,
            span: Span { first, past },
        })
    }

    /// What the piece between the last flag and the one that the newest bit ends is, the first that fits.
    #[inline(always)]
    fn class<C: Check, F: FrameBuffer>(&self, check: &mut C, frame: &mut F) -> EventKind
        requires sound { IsDecoder self.now (F.octets frame.old) }
        ensures closes { ClosesAs C.check (state self.now check.old (F.octets frame.old)) (F.octets frame.new) result }
        ensures sound { IsDecoder self.now (F.octets frame.new) }
    {
        if (self.last_bits >> 3) & 0x1f == 0x1f {
            return EventKind::Damaged(Cause::Unstuffed);
        }
        if self.data_bits > 8 * (self.longest + 2) {
            return EventKind::Overlong;
        }
        if self.data_bits < 32 {
            return EventKind::Damaged(Cause::Short);
        }
        if self.data_bits % 8 != 0 {
            return EventKind::Damaged(Cause::Unaligned);
        }
        self.store_last(check, frame);
        if !check.is_good() {
            return EventKind::Damaged(Cause::Fcs);
        }
        EventKind::Frame
    }
}
