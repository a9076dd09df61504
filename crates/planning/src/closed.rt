// The planner when the boxes of the round are closed.
use super::ready::Ready;
use paths::Order;

// `ready.boxes` is the Boxes word to send, and `ready.chances` are the chances in its boxes. `used` is how many of the drawn bytes the lot took, those passed
// over too: a number, so that a state borrows nothing.
#[derive(Drop)]
pub struct Closed {
    pub ready: Ready,
    pub order: Order,
    pub used: usize,
}
