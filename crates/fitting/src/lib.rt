// Plans tested whether they fit a task, and the pair that a question names.
#![tactic(auto)]

mod pairs;
mod testing;

pub use pairs::pair_at;
pub use testing::test_plan;
