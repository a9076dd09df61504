// The asker before a round. The planner's state has these fields too: a struct for what the two share would stand between each step and what it reads.
ghost use Rattle.std.specs.Prelude.{◌<◌};

use tasks::{Rounds, Task};

#[derive(Drop)]
pub struct Ready {
    pub task: Task,
    pub rounds: Rounds,
    pub round: u32,
    pub digest: [u8; 32],
    ghost goes_on: { round < rounds.count },
}
