//! What a capture is read into: the analyser of one line, that of two, or that of two with a clock each.

ghost use Rattle.std.specs.Prelude.{◌≡◌, ◌+◌, ◌<◌, ◌≤◌, ◌^◌, ◌↔◌, ◌⊎◌, ℕ, false, List, [], ◌∷◌, ◌++◌, length, take};
ghost use Rattle.std.specs.Prelude.{true, Option, Some, None, Err, MatchResult, IsErr, IfOk, OnOk, OnErr, IsTrue};
ghost use Rattle.std.specs.Prelude.{slice_get};
ghost use Rattle.std.specs.Option.{ForSome, option_to_list};
ghost use Rattle.arrayvec.specs.ArrayVec.{array_vec_len};
ghost use Rattle.bus_formats.specs.Capture.{bad_mark};
ghost use Rattle.bus_bits.specs.Limits.{most_places};
ghost use Rattle.bus_formats.specs.Packed.{head_fault_of, packed_fault_of};
ghost use Rattle.bus_pairing.specs.History.{KeptFrame, history, tally};
ghost use Rattle.bus_pairing.specs.Seen.{SeenReport};
ghost use Rattle.bus_pairing.specs.Talk.{pending};
ghost use Rattle.bus_watch.specs.Watch.{AdvancesWatch};
ghost use Rattle.bus_text.specs.CheckText.{kept_text};
ghost use Rattle.bus_text.specs.Counting.{IsFew};
ghost use Rattle.bus_text.specs.Advances.{AdvancesPage};
ghost use Rattle.bus_text.specs.Pages.{HasRoomFor, Pages};
ghost use Rattle.bus_text.specs.Listing.{listing, ending_text};
ghost use Rattle.bus_text.specs.Put.{TextStopsAt};
ghost use Rattle.bus_text.specs.Summary.{summary_of};
ghost use Rattle.bus_calls.specs.Internal.Asked.{IsMade, IsRuled};
ghost use Rattle.bus_calls.specs.Internal.Kinds.{KindView, KindLaws};
ghost use Rattle.bus_calls.specs.Internal.Watching.{FeedStopsWith, FeedAfter, reports_by, IsSame, IsSound};
ghost use Rattle.bus_calls.specs.Internal.Sessions.{BodyAfter, OctetsAfter, SourceStopsWith};

use crate::run::CaptureRun;
use bus_dictionary::Dictionary;
use bus_formats::{BadMark, HeadFault, PackedFault};
use bus_text::{Page, Printer, ShortWrite, ToolFault};
use bus_watch::{Counts, NewFault};
use std::alloc::Global;
use std::convert::AsSlice;
use std::io::Write;

/// An analyser of one line, or of two, and how its captures are written: they have symbols, which are bits, pairs of
/// bits, or bits in their order of arrival.
pub trait CaptureKind: Drop {
    type Symbol: Copy;

    /// What the analyser takes of them.
    type Received;

    /// Reads the octets of a packed capture after its head.
    type Body: Drop;

    /// The symbols of one of these octets.
    type Few: AsSlice<Self::Symbol> + Drop;

    ghost kind: { KindView Self Self.Symbol Self.Received Self.Body };

    /// An analyser that took no symbol. `depth` is how many frames its history keeps, and `origin` the
    /// place of its first symbol. `rest` is the silence after which a second line with its own clock comes to rest.
    fn new(
        alloc: Global,
        dictionary: Dictionary,
        depth: usize,
        origin: u64,
        rest: u64,
    ) -> Result<Self, NewFault>
        ensures depth { (result ≡ Err NewFault.DepthRange) ↔ ((depth < 1) ⊎ (1024 < depth)) }
        ensures origin { (result ≡ Err NewFault.Origin) ↔ ((1 ≤ depth) × (depth ≤ 1024) × (most_places < origin)) }
        ensures made { IfOk result (λ a. IsMade kind.watch dictionary depth origin a) }
        ensures rule { IfOk result (λ a. IsRuled kind rest a) };

    /// Puts the lines of the end on the page.
    fn put_ending(&self, printer: &Printer, page: &mut Page)
        requires room { HasRoomFor 300 page.old }
        ensures bytes { (b : List Self.Received) → kind.watch.is_after self.now b → page.new.text.items
            ≡ page.old.text.items ++ ending_text printer.now (kind.form.ending (kind.watch.origin self.now) b
            (pending (kind.watch.dictionary self.now) (reports_by kind.watch self.now b))) }
        ensures len { array_vec_len page.new.text ≤ array_vec_len page.old.text + 300 }
        ensures written { page.new.written ≡ page.old.written };

    /// How many verdicts named a station.
    fn tally(&self, station: u8) -> Counts
        ensures { (b : List Self.Received) → kind.watch.is_after self.now b →
            result ≡ tally (kind.watch.dictionary self.now) (reports_by kind.watch self.now b) station };

    /// How many frames the history has.
    fn history_len(&self) -> usize
        ensures value { (b : List Self.Received) → kind.watch.is_after self.now b →
            result ≡ length (history (kind.watch.depth self.now) (reports_by kind.watch self.now b)) }
        ensures bound { result ≤ 1024 };

    /// Puts the line of a frame of the history on the page, of which the oldest has the number 0.
    fn put_last<W: Write>(&self, i: usize, page: &mut Page, w: &mut W) -> Result<(), ShortWrite>
        requires { page.old.written < 2 ^ 100 }
        ensures put { (start : Option (List ℕ)) (text : List ℕ) (b : List Self.Received) (k : KeptFrame) →
            kind.watch.is_after self.now b →
            slice_get (history (kind.watch.depth self.now) (reports_by kind.watch self.now b)) i ≡ Some k →
            Pages start (W.contents w.old) page.old.text page.old.written text → MatchResult result
            (λ _. Pages start (W.contents w.new) page.new.text page.new.written
            (text ++ kept_text kind.form.is_two k))
            (λ cut. TextStopsAt start (W.contents w.new) (text ++ kept_text kind.form.is_two k) cut.sent) }
        ensures few { OnOk result
            (page.new.written + array_vec_len page.new.text
            ≤ page.old.written + array_vec_len page.old.text + 572) };

    /// The symbol of an octet of a text, or None where it is skipped.
    fn mark(octet: u8) -> Result<Option<Self::Symbol>, BadMark>
        ensures { (xs : List ℕ) → (kind.form.text xs).fault ≡ None → MatchResult result
            (λ symbol. ((kind.form.text (xs ++ octet ∷ [])).fault ≡ None)
            × ((kind.form.text (xs ++ octet ∷ [])).bits ≡ (kind.form.text xs).bits ++ option_to_list symbol))
            (λ _. ((kind.form.text (xs ++ octet ∷ [])).fault ≡ Some (bad_mark (length xs)))
            × ((kind.form.text (xs ++ octet ∷ [])).bits ≡ (kind.form.text xs).bits)) };

    /// Reads the head of a packed capture.
    fn read_head(head: &[u8; 16]) -> Result<Self::Body, HeadFault>
        ensures { MatchResult result
            (λ body. kind.is_body body head.now × ((kind.form.packed head.now).bits ≡ []))
            (λ fault. (xs : List ℕ) →
            kind.form.packed (head.now ++ xs) ≡ record { bits = []; fault = Some (head_fault_of fault) }) };

    /// The symbols of the next octet.
    fn decode_octet(body: &mut Self::Body, octet: u8) -> Result<Self::Few, PackedFault>
        ensures { (xs : List ℕ) → kind.is_body body.old xs → MatchResult result
            (λ symbols. kind.is_body body.new (xs ++ octet ∷ [])
            × ((kind.form.packed (xs ++ octet ∷ [])).bits ≡ (kind.form.packed xs).bits ++ Self.Few.items symbols))
            (λ fault. kind.form.packed (xs ++ octet ∷ [])
            ≡ record { bits = (kind.form.packed xs).bits; fault = Some (packed_fault_of fault) }) };

    /// What is wrong where the input ends here.
    fn finish(body: &Self::Body) -> Result<(), PackedFault>
        ensures { (xs : List ℕ) → kind.is_body body.now xs → MatchResult result
            (λ _. kind.form.packed_whole xs ≡ record { bits = (kind.form.packed xs).bits; fault = None })
            (λ fault. kind.form.packed_whole xs
            ≡ record { bits = (kind.form.packed xs).bits; fault = Some (packed_fault_of fault) }) };

    /// Takes the next symbol of a capture, and shows what is seen at it.
    fn analyse_symbol<W: Write>(
        symbol: Self::Symbol,
        run: &mut CaptureRun<Self>,
        w: &mut W,
    ) -> Result<(), ToolFault>
        requires { IsSound kind run.old }
        ensures taken { (start : Option (List ℕ)) (b : List Self.Symbol) →
            FeedAfter kind start (W.contents w.old) run.old b → MatchResult result
            (λ _. FeedAfter kind start (W.contents w.new) run.new (b ++ symbol ∷ []))
            (λ fault. FeedStopsWith kind start (W.contents w.new) run.new (b ++ symbol ∷ []) fault) }
        ensures same { IsSame kind run.old run.new }
        ensures sound { IsSound kind run.new };

    /// Takes the symbols of the next octets of a text, as many as come at once, and shows what is seen at them. Returns
    /// how many octets these were: none where the next one is to be looked at alone.
    fn analyse_text<W: Write>(
        octets: &[u8],
        run: &mut CaptureRun<Self>,
        w: &mut W,
    ) -> Result<usize, ToolFault>
        requires { IsSound kind run.old }
        ensures enough { IfOk result (λ n. n ≤ length octets.now) }
        ensures taken { (start : Option (List ℕ)) (xs : List ℕ) →
            OctetsAfter kind start (W.contents w.old) run.old xs → MatchResult result
            (λ n. OctetsAfter kind start (W.contents w.new) run.new (xs ++ take n octets.now))
            (λ fault. (n : ℕ) × (n ≤ length octets.now)
            × SourceStopsWith kind true start (W.contents w.new) run.new (xs ++ take n octets.now) fault) }
        ensures same { IsSame kind run.old run.new }
        ensures sound { IsSound kind run.new };

    /// Takes the symbols of the next octets of a packed capture, as many as come at once, and shows what is seen at
    /// them. Returns how many octets these were: none where the next one is to be looked at alone.
    fn analyse_packed<W: Write>(
        body: &mut Self::Body,
        octets: &[u8],
        run: &mut CaptureRun<Self>,
        w: &mut W,
    ) -> Result<usize, ToolFault>
        requires { IsSound kind run.old }
        ensures enough { IfOk result (λ n. n ≤ length octets.now) }
        ensures taken { (start : Option (List ℕ)) (xs : List ℕ) →
            BodyAfter kind start (W.contents w.old) body.old run.old xs → MatchResult result
            (λ n. BodyAfter kind start (W.contents w.new) body.new run.new (xs ++ take n octets.now))
            (λ fault. (n : ℕ)
            × SourceStopsWith kind false start (W.contents w.new) run.new (xs ++ take n octets.now) fault) }
        ensures same { IsSame kind run.old run.new }
        ensures sound { IsSound kind run.new };

    /// Its captures grow with their octets, and what is seen with its symbols.
    fn laws()
        ensures { KindLaws kind };
}
