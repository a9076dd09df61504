// The judge of a showing: its words are taken one by one, in bounded memory, and nothing is told of what they say before the end. It stands on neither side's code.
#![tactic(auto)]

mod given;
mod judge;
mod looking;
mod redrawing;
mod steps;
mod verdict;

pub use judge::Judge;
pub use verdict::{Content, Redrawn, Verdict};
