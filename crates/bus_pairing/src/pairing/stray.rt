//! Answers that answer nothing.

ghost use Rattle.std.specs.Prelude.{◌≡◌, Some};
ghost use Rattle.bus_pairing.specs.Seen.{is_stray, answers};

use crate::outcome::Outcome;
use crate::verdict::Verdict;
use bus_dictionary::Standing;

/// Whether a frame of this standing, which decides this verdict, has an answer's type and answers
/// nothing.
#[inline(always)]
pub(crate) fn is_stray(standing: Standing, verdict: Option<Verdict>) -> bool
    ensures { result ≡ is_stray (Some standing) verdict }
{
    match standing.frame_type() {
        // Without a branch, since the line's data decide what the type is.
        Some(ftype) => (ftype >= 128) & !answers(verdict),
        None => false,
    }
}

/// Whether a verdict says that the command was answered, in time or late.
#[inline(always)]
fn answers(verdict: Option<Verdict>) -> bool
    ensures { result ≡ answers verdict }
{
    matches!(
        verdict,
        Some(Verdict {
            outcome: Outcome::Answered | Outcome::Late,
            ..
        })
    )
}
