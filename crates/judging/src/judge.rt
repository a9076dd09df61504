// The judge between two words. Task, round and digest are as in both sides' states: the judge stands on neither's code.
ghost use Rattle.std.specs.Prelude.{◌≡◌, ◌+◌, ◌*◌, ◌^◌, ◌≤◌, true, vec_len};
ghost use Rattle.tasks.specs.Model.{task_of};
ghost use Rattle.judging.specs.Plans.{plan_in, fits_if_any};

use super::verdict::{Content, Redrawn};
use cutting::Awaits;
use tasks::{Plan, Task};

// `round` is the number of the round that is awaited, and how many are closed; `digest` is that of the book, and `content` and `redrawn` are the first findings.
// `redrawn` says whether there is a plan, too: it is what is told at the end, and the plan stays as it is. `memory` is for the Boxes that are drawn again; between words it means nothing.
#[derive(Drop)]
pub struct Judge {
    pub task: Task,
    pub plan: Option<Plan>,
    pub round: u32,
    pub digest: [u8; 32],
    pub content: Content,
    pub redrawn: Redrawn,
    pub awaits: Awaits,
    pub memory: Vec<u8>,
    ghost plan_fits: { fits_if_any (task_of task) (plan_in plan) ≡ true },
    ghost few_rounds: { round ≤ 2 ^ 24 },
    ghost word_room: { vec_len memory ≡ 7 + 32 * task.trains },
}
