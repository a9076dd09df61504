// The six words that pass between planner and asker: read exactly or refused by a fault, written, and where to stop reading them from a stream.
#![tactic(auto)]

mod awaited;
mod reading;
mod stops;
mod word;
mod writing;

pub use reading::{behind_head, read_word};
pub use stops::next_stop;
pub use word::Word;
pub use writing::{ask_bytes, boxes_head, end_bytes, opened_bytes, write_word};
