// Two plans that fit a task, and the coins of the second that show the same as coins of the first.
#![tactic(auto)]

mod asking;
mod coins;
mod pairs;
mod plans;
mod testing;

pub use asking::ask_in;
pub use plans::Plans;
