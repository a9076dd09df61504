// The words of a round: the Boxes and the Opened that a plan and a lot give, and the test of an Opened; and how a showing ends for a side.
#![tactic(auto)]

mod closing;
mod opening;
mod over;
mod testing;

pub use closing::write_boxes;
pub use opening::opened_word;
pub use over::{Outcome, Over, go_on};
pub use testing::test_opened;
