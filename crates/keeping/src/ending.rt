// How the end of a showing is told.
ghost use Rattle.std.specs.Prelude.{◌≡◌};
ghost use Rattle.round.specs.Over.{outcome_of};
ghost use Rattle.keeping.specs.Endings.{ending_of};

use super::hex::Hex;
use command::Ending;
use round::{Outcome, Over};

// Tells the outcome and the last digest on standard error. All is well where the asker was content in all rounds.
pub fn tell(rt: &HostRuntime, over: Over) -> Ending
    ensures { result ≡ ending_of (outcome_of over.outcome) }
{
    let Over { outcome, digest } = over;
    let _ = eprintln!(rt; "{outcome}");
    let _ = eprintln!(rt; "last digest {}", Hex { digest });
    match outcome {
        Outcome::Content(_) => Ending::Well,
        _ => Ending::Ill,
    }
}
