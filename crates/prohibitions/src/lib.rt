// Trains that may not use some path: the task that says so, and what its plans say of the plans of the first task.
#![tactic(auto)]

mod prohibiting;

pub use prohibiting::{Prohibition, with_prohibitions};
