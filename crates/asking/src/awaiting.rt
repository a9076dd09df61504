// The asker when the Task is awaited.
ghost use Rattle.std.specs.Prelude.{◌≡◌};
ghost use Rattle.tasks.specs.Model.{task_of};
ghost use Rattle.tasks.specs.Writing.{task_bytes};

use tasks::{Rounds, Task};

// The asker's own task, and its bytes.
#[derive(Drop)]
pub struct Awaiting {
    pub task: Task,
    pub own: Vec<u8>,
    pub rounds: Rounds,
    ghost own_bytes: { own.items ≡ task_bytes (task_of task) },
}
