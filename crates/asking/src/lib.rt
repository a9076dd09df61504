// The asker's side of a showing: its state goes through methods by value, from the start to the end. After an end or a refusal there is no state that sends.
#![tactic(auto)]

mod asked;
mod awaiting;
mod drawn;
mod meeting;
mod questioning;
mod ready;
mod start;
mod tested;
mod testing;
mod turning;

pub use asked::Asked;
pub use awaiting::Awaiting;
pub use drawn::Drawn;
pub use ready::Ready;
pub use tested::Tested;
