// Why nothing could be read. That the input ends is no error: the bytes that are there are then read as a word that is cut.
ghost use Rattle.std.specs.Prelude.{◌≡◌};
ghost use Rattle.line.specs.declared.error.LineError.TheVariants.{Memory, Stream};

use std::alloc::AllocError;
use std::io;

// An enum, and not `io::Error`, whose kind each caller would have to look at for want of memory. The conversions are written out: nothing prints this error, so a
// derive of `thiserror` would ask for messages that nobody reads.
#[derive(Drop)]
pub enum LineError {
    Stream(io::Error),
    Memory,
}

impl From<io::Error> for LineError {
    ghost from_gives = { λ error e. e ≡ Stream error };

    fn from(error: io::Error) -> LineError {
        LineError::Stream(error)
    }
}

impl From<AllocError> for LineError {
    ghost from_gives = { λ _ e. e ≡ Memory };

    fn from(_error: AllocError) -> LineError {
        LineError::Memory
    }
}
