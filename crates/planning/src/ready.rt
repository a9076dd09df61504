// The planner before a round. The fields that the asker's state has too are not a struct of their own: see there.
ghost use Rattle.std.specs.Prelude.{◌≡◌, ◌+◌, ◌*◌, ◌<◌, true, vec_len};
ghost use Rattle.paths.specs.Plan.{fits};
ghost use Rattle.tasks.specs.Model.{task_of, plan_of};

use tasks::{Plan, Rounds, Task};

// `boxes` and `chances` are memory for the rounds' Boxes word and chances; before the round's boxes are closed they mean nothing.
#[derive(Drop)]
pub struct Ready {
    pub task: Task,
    pub plan: Plan,
    pub rounds: Rounds,
    pub round: u32,
    pub digest: [u8; 32],
    pub boxes: Vec<u8>,
    pub chances: Vec<u8>,
    ghost plan_fits: { fits (task_of task) (plan_of plan) ≡ true },
    ghost goes_on: { round < rounds.count },
    ghost word_room: { vec_len boxes ≡ 7 + 32 * task.trains },
    ghost chance_room: { vec_len chances ≡ 32 * task.trains },
}
