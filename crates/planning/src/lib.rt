// The planner's side of a showing: its state goes through methods by value, from the start to the end. After an end or a refusal there is no state that sends.
#![tactic(auto)]

mod closed;
mod heard;
mod hearing;
mod opened;
mod ready;
mod start;
mod steps;

pub use closed::Closed;
pub use heard::Heard;
pub use opened::Opened;
pub use ready::Ready;
pub use start::Begun;
