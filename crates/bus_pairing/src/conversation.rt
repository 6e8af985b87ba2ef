//! What is kept of the reports so far.

ghost use Rattle.std.specs.Prelude.{◌≡◌, ◌+◌, ◌≤◌, ◌<◌, ◌^◌, List, ℕ, Option, [], IfOk, length, replicate, true};
ghost use Rattle.std.specs.Prelude.{◌↔◌, IsTrue, Some, None, slice_get};
ghost use Rattle.bus_line.specs.Limits.{most_octets};

mod count;
mod keep;

use crate::counts::Counts;
use crate::pair_kept::PairKept;
use crate::pairing::Pairing;
use crate::pending::Pending;
use crate::seen_event::SeenEvent;
use bus_bits::{Span, Spent};
use bus_dictionary::Dictionary;
use bus_line::{CopyCount, Event, EventKind, Line};
use circular_buffer::HeapCircularBuffer;
use std::alloc::{AllocError, Global};
use std::marker::Model;

/// What is kept of the reports so far: the command that waits, the verdicts for each station, and
/// the last frames.
///
/// It is given the reports of one line, or of two in the order in which they are decided. It takes memory once, for
/// the history, when it is made.
#[derive(Drop)]
pub struct Conversation {
    dictionary: Dictionary,
    pairing: Pairing,
    /// By station.
    tally: [Counts; 256],
    history: HeapCircularBuffer<PairKept>,
    /// What the last report was found to be; before the first it says nothing.
    last: SeenEvent,
    /// The steps `copied`.
    copied: CopyCount,
    /// The steps `handled`; the others are counted elsewhere.
    spent: Spent,
}

impl Model for Conversation {
    ghost use Rattle.bus_pairing.specs.Conversation.{ConversationState};

    ghost Value = { ConversationState };

    ghost use Rattle.bus_pairing.specs.Internal.ConversationView.{conversation_state, IsConversation};

    ghost view = { conversation_state };

    ghost invariant = { IsConversation };
}

/// No verdict for any station.
fn no_counts() -> [Counts; 256]
    ensures { result ≡ replicate 256 (record { answered = 0; missing = 0; spoilt = 0; late = 0 }) }
{
    [Counts {
        answered: 0,
        missing: 0,
        spoilt: 0,
        late: 0,
    }; 256]
}

impl Conversation {
    ghost use Rattle.bus_line.specs.Shown.{reported};
    ghost use Rattle.bus_line.specs.LineReport.{line_report};
    ghost use Rattle.bus_pairing.specs.Conversation.{AdvancesConversation, HasRoom, IsWhole, ConversationAfter};
    ghost use Rattle.bus_pairing.specs.Shown.{found_on, kept_pair_option};

    /// A conversation of no reports, whose history keeps `depth` frames, one or more. Fails only where memory was
    /// refused.
    pub fn new(alloc: Global, dictionary: Dictionary, depth: usize) -> Result<Self, AllocError>
        requires { 1 ≤ depth }
        ensures keeps { IfOk result (λ j. ConversationAfter j []) }
        ensures given { IfOk result (λ j. (j.dictionary ≡ dictionary) × (j.depth ≡ depth)) }
    {
        let history = HeapCircularBuffer::with_capacity(alloc, depth)?;
        Ok(Conversation {
            dictionary,
            pairing: Pairing::new(),
            tally: no_counts(),
            history,
            last: SeenEvent::nothing(),
            copied: CopyCount::new(alloc),
            spent: Spent::zero(),
        })
    }

    /// Takes a report of a line, a frame with these octets; [`Conversation::last`] returns what follows from it. `line`
    /// is `None` where there is one line.
    ///
    /// A frame has 4 to 258 octets, and the counters have room for one report more: [`Conversation::has_room`].
    #[inline(always)]
    pub fn add_report(&mut self, line: Option<Line>, event: Event, octets: &[u8])
        requires whole { IsWhole event.kind octets.now }
        requires fits { length octets.now ≤ most_octets }
        requires room { HasRoom self.old }
        ensures enters { AdvancesConversation self.old (line_report line (reported octets.now event))
            (found_on line octets.now self.new.last) self.new }
    {
        self.pairing
            .judge(&self.dictionary, line, event, octets, &mut self.last);
        self.spent.tick_handled();
        self.spent.tick_handled();
        self.count(self.last.verdict);
        if let EventKind::Frame = event.kind {
            self.spent.tick_handled();
            self.spent.tick_handled();
            self.keep(line, event.span, octets);
        }
    }

    /// Whether the counters have room for one report more, of the longest frame.
    pub fn has_room(&self) -> bool
        ensures { IsTrue result ↔ HasRoom self.now }
    {
        self.copied.octets() <= u64::MAX - 258 && self.spent.handled <= u64::MAX - 6
    }

    /// What the last report was found to be; before the first it says nothing.
    #[inline(always)]
    pub fn last(&self) -> &SeenEvent
        ensures { result.now ≡ self.now.last }
    {
        &self.last
    }

    /// A frame of the history, of which the oldest has the number 0.
    pub fn kept(&self, i: usize) -> Option<&PairKept>
        ensures { kept_pair_option result ≡ slice_get self.now.history i }
    {
        self.history.get(i)
    }

    /// How many frames the history has: at most its depth.
    pub fn kept_len(&self) -> usize
        ensures value { result ≡ length self.now.history }
        ensures within { result ≤ self.now.depth }
    {
        self.history.len()
    }

    /// How many verdicts named a station.
    pub fn counts(&self, station: u8) -> Counts
        ensures { slice_get self.now.tally station ≡ Some result }
    {
        self.tally[usize::from(station)]
    }

    /// The command that waits.
    pub fn pending(&self) -> Option<Pending>
        ensures { result ≡ self.now.waiting }
    {
        self.pairing.waiting
    }

    /// The dictionary.
    pub fn dictionary(&self) -> &Dictionary
        ensures { result.now ≡ self.now.dictionary }
    {
        &self.dictionary
    }

    /// The steps that are counted here: `copied` and `handled`; the others are 0.
    pub fn spent(&self) -> Spent
        ensures { result
            ≡ record {
              shifted = 0;
              assembled = 0;
              folded = 0;
              stored = 0;
              copied = self.now.copied;
              handled = self.now.handled;
            } }
    {
        Spent {
            copied: self.copied.octets(),
            handled: self.spent.handled,
            ..Spent::zero()
        }
    }
}
