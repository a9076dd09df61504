// The asker when the question of the round is drawn, and its Boxes are awaited.
use super::ready::Ready;

#[derive(Drop)]
pub struct Drawn {
    pub ready: Ready,
    pub pair: u16,
}
