// Words read from a stream, one at a time.
#![tactic(auto)]

mod error;
mod reading;
#[cfg(test)]
mod tests;

pub use error::LineError;
pub use reading::read_word_from;
