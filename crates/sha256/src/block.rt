// A block of 64 bytes: how it is filled, and the hash value after it.
ghost use Rattle.std.specs.Prelude.{◌≡◌, ◌+◌, ◌≤◌, ◌++◌, length, take, drop};
ghost use Rattle.sha256.specs.Sha256.{schedule as scheduled, compress as compressed};

use crate::compress::compress_words;
use crate::state::State;

// The block with the bytes of `part` after the first `held`.
pub(crate) fn filled(start: [u8; 64], held: usize, part: &[u8]) -> [u8; 64]
    requires { held + length part.now ≤ 64 }
    ensures front { take (held + length part.now) result ≡ take held start ++ part.now }
    ensures whole { result ≡ take held start ++ part.now ++ drop (held + length part.now) start }
{
    let mut block = start;
    block[held..held + part.len()].copy_from_slice(part);
    block
}

// The block's sixteen words, before those that are computed of them.
#[tactic(auto, using(crate::proofs::Rounds::block_laws))]
fn words(block: &[u8; 64]) -> [u32; 64]
    ensures { take 16 result ≡ scheduled block.now 0 }
{
    let (quads, _) = block.as_chunks::<4>();
    let mut w = [0; 64];
    // by place, since the library says nothing of an array written through a zip of `iter_mut`
    for (t, quad) in quads.iter().enumerate() {
        w[t] = u32::from_be_bytes(*quad);
    }
    w
}

// The hash value after the block.
pub(crate) fn compress(s: State<u32>, block: &[u8; 64]) -> State<u32>
    ensures { result ≡ compressed s block.now }
{
    compress_words(s, &mut words(block))
}
