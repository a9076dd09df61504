// A task, and two plans that fit it.
ghost use Rattle.std.specs.Prelude.{◌≡◌, true};
ghost use Rattle.paths.specs.Plan.{fits};
ghost use Rattle.tasks.specs.Model.{task_of, plan_of};

use tasks::{Plan, Task};

#[derive(Drop)]
pub struct Plans {
    pub task: Task,
    pub first: Plan,
    pub second: Plan,
    ghost first_fits: { fits (task_of task) (plan_of first) ≡ true },
    ghost second_fits: { fits (task_of task) (plan_of second) ≡ true },
}
