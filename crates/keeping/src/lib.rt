// What the programs of both sides share: the options, the line, the number of rounds, the book and the transcript, the progress, the rounds in turn, and how the end
// is told. And the drawn bytes, which the judge reads too.
#![tactic(auto)]

mod drawn;
mod ending;
mod hex;
mod kept;
mod options;
mod progress;
mod records;
mod rounds;
mod showing;
mod talk;

pub use drawn::Drawn;
pub use ending::tell;
pub use options::Options;
pub use progress::Progress;
pub use records::Records;
pub use rounds::rounds_for;
pub use showing::{Showing, Side, Stop, run};
pub use talk::Line;
