// Closed boxes, each a commitment to the number of a train in a round; their openings; and what two openings of one box give away.
#![tactic(auto)]

mod all;
mod binding;
mod closing;
mod group;
mod opening;

pub use all::close_all;
pub use binding::{TwoTexts, collision};
pub use closing::close;
pub use opening::{Opening, opens};
