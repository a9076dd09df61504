// The asker when the Boxes came: an answer is awaited.
use super::drawn::Drawn;

// The Boxes word, and the Ask to send.
#[derive(Drop)]
pub struct Asked {
    pub drawn: Drawn,
    pub boxes: Vec<u8>,
    pub ask: [u8; 7],
}
