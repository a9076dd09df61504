// Tasks and plans as bytes, read exactly or refused by a fault; and the first pair that a plan fails.
#![tactic(auto)]

mod fault;
mod fitting;
mod kind;
mod pair;
mod plan;
mod reading;
mod rounds;
mod task;
mod writing;

pub use fault::{Fault, Unfit};
pub use fitting::{first_unfit, path_of};
pub use kind::Kind;
pub use pair::Pair;
pub use paths::MOST_PAIRS;
pub use plan::Plan;
pub use reading::{Head, check_plan, check_task, read_head, read_plan, read_task};
pub use rounds::{MOST_ROUNDS, Rounds};
pub use task::{MOST_PATHS, MOST_TRAINS, Task};
pub use writing::{write_plan, write_task};
