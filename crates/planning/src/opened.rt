// The planner when a pair was asked for.
use super::closed::Closed;

// The Ask that came, and the Opened to send.
#[derive(Drop)]
pub struct Opened {
    pub closed: Closed,
    pub ask: [u8; 7],
    pub opened: [u8; 75],
}
