// A whole message: its blocks, the last block or two with the padding, and the bytes of the digest.
ghost use Rattle.std.specs.Prelude.{◌≡◌, ℕ, ◌*◌, ◌/◌, ◌%◌, ◌^◌, ◌<◌, List, ◌++◌, length, take, drop};
ghost use Rattle.std.specs.List.{flat_map};
ghost use Rattle.sha256.specs.Sha256.{bytes as bytes_of, padding, hashed, output as outputOf, sha256};
ghost use Rattle.sha256.specs.Stream.{Left};

use crate::block::{compress, filled};
use crate::compress::initial;
use crate::state::State;

// The hash value after the whole blocks of `part`, and what comes after them.
#[tactic(auto, using(crate::proofs::Messages::hashed_none, crate::proofs::Messages::hashed_more, crate::proofs::Messages::chunk_block))]
pub(crate) fn blocks(start: State<u32>, part: &[u8]) -> (State<u32>, &[u8])
    ensures state { result.0 ≡ hashed start part.now (length part.now / 64) }
    ensures rest { result.1.now ≡ drop (64 * (length part.now / 64)) part.now }
    ensures size { length result.1.now ≡ length part.now % 64 }
{
    let (whole, rest) = part.as_chunks::<64>();
    let mut s = start;
    for block in whole {
        s = compress(s, block);
    }
    (s, rest)
}

// The block with the number of bits in its last eight bytes.
#[tactic(auto, using(crate::proofs::Bytes::sized_laws))]
fn sized(start: [u8; 64], total: u64) -> [u8; 64]
    ensures { result ≡ take 56 start ++ bytes_of 8 (8 * total) }
{
    filled(start, 56, &total.wrapping_mul(8).to_be_bytes())
}

// The hash value after what is left of a message, `rest`, with the padding of the whole.
#[tactic(auto, using(crate::proofs::Messages::last_laws))]
fn last(s: State<u32>, rest: &[u8], total: u64) -> State<u32>
    requires { length rest.now < 64 }
    ensures { (n : ℕ) → n % 64 ≡ length rest.now → n % 2 ^ 64 ≡ total → result ≡ hashed s (rest.now ++ padding n) (length (rest.now ++ padding n) / 64) }
{
    let mut block = filled([0; 64], 0, rest);
    block[rest.len()] = 0x80;
    if rest.len() < 56 {
        compress(s, &sized(block, total))
    } else {
        let t = compress(s, &block);
        compress(t, &sized([0; 64], total))
    }
}

#[tactic(auto, using(crate::proofs::Bytes::words_laws))]
fn bytes(words: [u32; 8]) -> [u8; 32]
    ensures { result ≡ flat_map (bytes_of 4) words }
{
    let mut out = [0; 32];
    // by place, as in block.rt
    for (i, word) in words.iter().enumerate() {
        out[4 * i..4 * i + 4].copy_from_slice(&word.to_be_bytes());
    }
    out
}

// The bytes of a hash value.
pub fn output(s: State<u32>) -> [u8; 32]
    ensures { result ≡ outputOf s }
{
    bytes([s.a, s.b, s.c, s.d, s.e, s.f, s.g, s.h])
}

// The digest of a message, of which `s` has the whole blocks and `rest` what is left.
pub(crate) fn finished(s: State<u32>, rest: &[u8], total: u64) -> [u8; 32]
    requires { length rest.now < 64 }
    ensures { (m : List ℕ) → Left s rest.now total m → result ≡ sha256 m }
{
    output(last(s, rest, total))
}

// The digest of the message.
#[tactic(auto, unfolding(crate::specs::Lane::state_at))]
pub fn digest(message: &[u8]) -> [u8; 32]
    ensures { result ≡ sha256 message.now }
{
    let (s, rest) = blocks(initial(), message);
    finished(s, rest, message.len() as u64)
}
