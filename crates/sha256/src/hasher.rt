// The state of a digest while the parts of its message come.
ghost use Rattle.std.specs.Prelude.{◌<◌};

use crate::state::State;

// The hash value after the whole blocks, the `held` bytes that came after them, and the number of all
// bytes modulo 2^64. The block is of fixed size, since nothing here takes memory from the heap.
#[derive(Clone, Copy)]
pub struct Hasher {
    pub(crate) state: State<u32>,
    pub(crate) block: [u8; 64],
    pub(crate) held: usize,
    pub(crate) total: u64,
    ghost ok: { held < 64 },
}
