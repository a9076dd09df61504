// Whether there is another round, and how a fault ends a showing.
ghost use Rattle.std.specs.Prelude.{◌≡◌};
ghost use Rattle.tasks.specs.Fault.{number};
ghost use Rattle.tasks.specs.Model.{task_of};
ghost use Rattle.round.specs.Over.{leads, over_of, fault};
ghost use Rattle.asking.specs.Asking.{turn};
ghost use Rattle.asking.specs.Model.{ready_of};

use super::ready::Ready;
use round::{Outcome, Over, go_on};
use tasks::{Fault, Rounds, Task};

// This round, or the end after the last one.
pub(super) fn turn(task: Task, rounds: Rounds, round: u32, digest: [u8; 32]) -> Result<Ready, Over>
    ensures { leads ready_of result ≡ turn record { task = task_of task; rounds = rounds.count; round = round; digest = digest } }
{
    go_on(rounds, round, digest)?;
    Ok(Ready {
        task,
        rounds,
        round,
        digest,
    })
}

impl Ready {
    // A fault in this round. The planner has the same over its own state: a function for both would take as many words to call.
    pub(super) fn stops(&self, cause: Fault) -> Over
        ensures { over_of result ≡ record { outcome = fault (number cause) self.now.round; digest = self.now.digest } }
    {
        Over {
            outcome: Outcome::Fault(cause, self.round),
            digest: self.digest,
        }
    }
}
