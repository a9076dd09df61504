// The asker when the answer was tested.
use super::asked::Asked;
use tasks::Fault;

// The Opened, where the answer was one of this round; the End to send; and what the test of the answer gave.
#[derive(Drop)]
pub struct Tested {
    pub asked: Asked,
    pub opened: Option<[u8; 75]>,
    pub end: [u8; 6],
    pub test: Result<(), Fault>,
}
