//! The kinds of lines.

ghost use Rattle.std.specs.Prelude.{◌≡◌, ◌≢◌, ◌≤◌, ◌++◌, length, take, codes, IfSome, None};
ghost use Rattle.bus_text.specs.Kinds.{kind_word, kind_named};

/// The kinds of lines of a listing.
#[derive(Clone, Copy, Debug, PartialEq, Eq)]
pub enum Kind {
    /// A frame with a good check.
    Frame,
    /// A piece between two flags that is no frame.
    Damaged,
    /// A piece with more data than the longest frame and its check.
    Overlong,
    /// A piece that seven 1 bits ended.
    Abort,
    /// An idle line.
    Idle,
    /// A frame of a type of 128 or more that answers no command.
    Stray,
    /// A command that was answered in time.
    Answered,
    /// A command that was followed by another frame.
    Missing,
    /// A command that was followed by what is no frame.
    Spoilt,
    /// A command that was answered late.
    Late,
    /// A piece that no flag or abort has ended.
    Begun,
    /// A command without a verdict.
    Pending,
}

/// All of them.
const KINDS: [Kind; 12] = [
    Kind::Frame,
    Kind::Damaged,
    Kind::Overlong,
    Kind::Abort,
    Kind::Idle,
    Kind::Stray,
    Kind::Answered,
    Kind::Missing,
    Kind::Spoilt,
    Kind::Late,
    Kind::Begun,
    Kind::Pending,
];

impl Kind {
    /// The kind that a word of a line names.
    pub fn read(word: &str) -> Option<Kind>
        ensures named { result ≡ kind_named word.now }
        ensures names { IfSome result (λ kind. word.now ≡ kind_word kind) }
        ensures none { result ≡ None → (kind : Kind) → word.now ≢ kind_word kind }
    {
        KINDS.iter().find(|kind| kind.word() == word).copied()
    }

    /// How lines of this kind name it.
    pub(crate) fn word(self) -> &'static str
        ensures word { result.now ≡ kind_word self }
        ensures len { length result.now ≤ 8 }
    {
        match self {
            Kind::Frame => "frame",
            Kind::Damaged => "damaged",
            Kind::Overlong => "overlong",
            Kind::Abort => "abort",
            Kind::Idle => "idle",
            Kind::Stray => "stray",
            Kind::Answered => "answered",
            Kind::Missing => "missing",
            Kind::Spoilt => "spoilt",
            Kind::Late => "late",
            Kind::Begun => "open",
            Kind::Pending => "pending",
        }
    }
}
