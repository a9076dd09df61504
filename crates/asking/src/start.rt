// How the asker begins.
ghost use Rattle.std.specs.Prelude.{◌≡◌, ℕ, List, IfOk};
ghost use Rattle.tasks.specs.Model.{task_of};
ghost use Rattle.asking.specs.Conduct.{Conduct};
ghost use Rattle.asking.specs.Model.{awaiting_of};

use super::awaiting::Awaiting;
use std::alloc::{AllocError, Global};
use tasks::{Rounds, Task, write_task};

impl Awaiting {
    // An asker who wants to see so many rounds of its own task.
    #[tactic(auto, using(crate::proofs::Runs::conduct_of))]
    pub fn start(heap: Global, task: Task, rounds: Rounds) -> Result<Awaiting, AllocError>
        ensures state { IfOk result (λ s. awaiting_of s ≡ record { task = task_of task; rounds = rounds.count }) }
        ensures conduct { (hash : List ℕ → List ℕ) → Conduct hash (task_of task) rounds.count }
    {
        let own = write_task(heap, &task)?;
        Ok(Awaiting { task, own, rounds })
    }
}
