// Lots and questions drawn from bytes, as the promises of uniformity say.
#![tactic(auto)]

mod had;
mod lots;
mod numbers;
mod orders;
mod questions;

pub use had::Had;
pub use lots::{Lot, draw_lot};
pub use questions::draw_question;
