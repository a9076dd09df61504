// SHA-256 of FIPS 180-4: the digest of a message, in one call or as its parts come.
#![tactic(auto)]

mod block;
mod compress;
mod hasher;
mod message;
mod state;
mod stream;
mod vectors;
mod words;

pub use compress::{compress_words, initial};
pub use hasher::Hasher;
pub use message::{digest, output};
pub use state::State;
pub use words::K;
