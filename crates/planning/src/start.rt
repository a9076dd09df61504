// How the planner begins.
ghost use Rattle.std.specs.Prelude.{◌≡◌, ℕ, true, List, IfOk};
ghost use Rattle.sha256.specs.Sha256.{sha256};
ghost use Rattle.paths.specs.Plan.{fits};
ghost use Rattle.tasks.specs.Model.{task_of, plan_of};
ghost use Rattle.tasks.specs.Reading.{Meets};
ghost use Rattle.planning.specs.Model.{begun_of};
ghost use Rattle.planning.specs.Planning.{begin, start};
ghost use Rattle.planning.specs.Conduct.{Conduct};

use super::ready::Ready;
use fitting::test_plan;
use round::{Over, go_on};
use std::alloc::{AllocError, Global};
use tasks::{Fault, Plan, Rounds, Task, write_task};

// The Task word, which is sent first, and the first round; or the end, where there are no rounds.
#[derive(Drop)]
pub struct Begun {
    pub word: Vec<u8>,
    pub next: Result<Ready, Over>,
}

// A showing of a plan that fits: the first round, or the end, where there are no rounds.
fn begin(heap: Global, task: Task, plan: Plan, rounds: Rounds) -> Result<Begun, AllocError>
    requires { fits (task_of task) (plan_of plan) ≡ true }
    ensures { IfOk result (λ b. begun_of b ≡ begin sha256 (task_of task) (plan_of plan) rounds.count) }
{
    let word = write_task(heap, &task)?;
    let size = 32 * task.trains as usize;
    let boxes = Vec::from_elem(heap, 0, 7 + size)?;
    let chances = Vec::from_elem(heap, 0, size)?;
    let digest = book::start(&word);
    // by hand, and no `map`: that this is one of the rounds is a fact of the state, which a closure would not know
    if let Err(over) = go_on(rounds, 0, digest) {
        let next = Err(over);
        return Ok(Begun { word, next });
    }
    let next = Ok(Ready {
        task,
        plan,
        rounds,
        round: 0,
        digest,
        boxes,
        chances,
    });
    Ok(Begun { word, next })
}

impl Ready {
    // A showing of the plan in so many rounds, or the fault for which there is none: then nothing is sent. Where it is begun, its steps, taken in turn against
    // any other side, keep to the planner's conduct.
    #[tactic(auto, using(crate::proofs::Conducts::conduct_of))]
    pub fn start(heap: Global, task: Task, plan: Plan, rounds: Rounds) -> Result<Begun, Fault>
        ensures answer { Meets begun_of result (start sha256 (task_of task) (plan_of plan) rounds.count) }
        ensures conduct { (hash : List ℕ → List ℕ) → Conduct hash (task_of task) (plan_of plan) rounds.count }
    {
        test_plan(&task, &plan)?;
        Ok(begin(heap, task, plan, rounds)?)
    }
}
