// How the program of the planner begins.
ghost use Rattle.std.specs.Prelude.{ℕ, List};
ghost use Rattle.sha256.specs.Sha256.{sha256};
ghost use Rattle.tasks.specs.Model.{task_of, plan_of};
ghost use Rattle.tasks.specs.Reading.{Meets};
ghost use Rattle.planning.specs.Conduct.{Conduct};
ghost use Rattle.planning.specs.Model.{begun_of};
ghost use Rattle.planning.specs.Planning.{start};
ghost use Rattle.secrecy.specs.Lots.{ByLots};
ghost use Rattle.secrecy.specs.Misses.{GlassShows};
ghost use Rattle.secrecy.specs.Secrecy.{SecretOfPlan, Secrecy};
ghost use Rattle.secrecy.specs.Simulated.{ToldWithout};
ghost use Rattle.joined.specs.Answered.{Completes};
ghost use Rattle.joined.specs.Cases.{AllHold, cases, faults};
ghost use Rattle.joined.specs.Joined.{Joins};
ghost use Rattle.joined.specs.Refused.{RefusedEnds};
ghost use Rattle.joined.specs.Side.{JoinedIs};
ghost use Rattle.joined.specs.Sides.{NothingAfter, SidesRun};
ghost use Rattle.blameless.specs.Blameless.{Blameless};

use planning::Begun;
use std::alloc::Global;
use tasks::{Fault, Plan, Rounds, Task};

// A showing of the plan in so many rounds, or the fault for which there is none. Of its runs it is promised: they keep to the planner's conduct; an asker whose
// words don't hang on the digests of Boxes sees the same of any other plan that fits, and what is told without a plan, as often; what is properly asked for is answered so that the asker accepts it; with an
// honest asker both are content, unless drawn bytes are too few; after a refusal nothing more is sent; and the judge never blames the planner.
#[tactic(auto, using(crate::proofs::Told::planner_laws))]
pub fn start_planner(heap: Global, task: Task, plan: Plan, rounds: Rounds) -> Result<Begun, Fault>
    ensures answer { Meets begun_of result (start sha256 (task_of task) (plan_of plan) rounds.count) }
    ensures conduct { (hash : List ℕ → List ℕ) → Conduct hash (task_of task) (plan_of plan) rounds.count }
    ensures this_plan { SecretOfPlan sha256 (task_of task) (plan_of plan) rounds.count }
    ensures simulated { ToldWithout sha256 (task_of task) (plan_of plan) rounds.count }
    ensures secrecy { Secrecy sha256 }
    ensures by_lots { ByLots }
    ensures glass { GlassShows }
    ensures complete { Completes }
    ensures joined { Joins }
    ensures runs { SidesRun sha256 }
    ensures joins { JoinedIs }
    ensures after { NothingAfter sha256 }
    ensures refused { RefusedEnds sha256 }
    ensures cases { AllHold cases }
    ensures faults { AllHold faults }
    ensures blameless { Blameless sha256 }
{
    secrecy::start(heap, task, plan, rounds)
}
