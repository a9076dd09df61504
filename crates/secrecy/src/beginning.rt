// How the planner begins, with what is promised of its whole run: a function of its own, since `planning` lies below what is promised here.
ghost use Rattle.std.specs.Prelude.{ℕ, List};
ghost use Rattle.sha256.specs.Sha256.{sha256};
ghost use Rattle.tasks.specs.Model.{task_of, plan_of};
ghost use Rattle.tasks.specs.Reading.{Meets};
ghost use Rattle.planning.specs.Model.{begun_of};
ghost use Rattle.planning.specs.Planning.{start};
ghost use Rattle.planning.specs.Conduct.{Conduct};
ghost use Rattle.secrecy.specs.Secrecy.{SecretOfPlan};
ghost use Rattle.secrecy.specs.Simulated.{ToldWithout};

use planning::{Begun, Ready};
use std::alloc::Global;
use tasks::{Fault, Plan, Rounds, Task};

// A showing of the plan in so many rounds, or the fault for which there is none, as the planner begins it. Its steps, taken in turn against any other side,
// keep to the planner's conduct; and they keep the plan secret: an asker that doesn't look into the digests sees what it would see of any other plan that fits,
// with drawn bytes that go with these, and what is told without a plan, equally often.
pub fn start(heap: Global, task: Task, plan: Plan, rounds: Rounds) -> Result<Begun, Fault>
    ensures answer { Meets begun_of result (start sha256 (task_of task) (plan_of plan) rounds.count) }
    ensures conduct { (hash : List ℕ → List ℕ) → Conduct hash (task_of task) (plan_of plan) rounds.count }
    ensures secrecy { SecretOfPlan sha256 (task_of task) (plan_of plan) rounds.count }
    ensures simulated { ToldWithout sha256 (task_of task) (plan_of plan) rounds.count }
{
    Ready::start(heap, task, plan, rounds)
}
