// The planner when the End of the round came.
use super::opened::Opened;

#[derive(Drop)]
pub struct Heard {
    pub opened: Opened,
    pub end: [u8; 6],
    pub content: bool,
}
