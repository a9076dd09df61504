// SHA-256 of eight texts of 39 bytes at once, in the lanes of vectors.
#![tactic(auto)]

mod blocks;
mod texts;

pub use texts::digests;
