// The words of a showing cut into rounds, one word after the other.
#![tactic(auto)]

mod hearing;
mod phases;

pub use hearing::hear;
pub use phases::{Asked, Awaits, Heard, Round};
