// Eight texts of 39 bytes and their digests.
ghost use Rattle.std.specs.Prelude.{◌≡◌, ℕ, ◌<◌, [], slice_index_or};
ghost use Rattle.sha256.specs.Lane.{state_at};
ghost use Rattle.sha256.specs.Sha256.{output as outputOf, sha256};
ghost use Rattle.lanes.specs.Lane.{lane};

use crate::blocks::load;
use sha256::{State, compress_words, initial, output};
use std::simd::prelude::*;

// Lane j of a state.
#[tactic(auto, unfolding(sha256::specs::Lane::state_at))]
fn alone(s: State<u32x8>, j: usize) -> State<u32>
    requires { j < 8 }
    ensures { result ≡ state_at lane s j }
{
    State {
        a: s.a.to_array()[j],
        b: s.b.to_array()[j],
        c: s.c.to_array()[j],
        d: s.d.to_array()[j],
        e: s.e.to_array()[j],
        f: s.f.to_array()[j],
        g: s.g.to_array()[j],
        h: s.h.to_array()[j],
    }
}

// The digests of the eight lanes.
fn outputs(s: State<u32x8>) -> [[u8; 32]; 8]
    ensures { (j : ℕ) → j < 8 → slice_index_or result j [] ≡ outputOf (state_at lane s j) }
{
    // a loop: with `array::from_fn` it was tried, and the closure needs a `requires` and an `ensures` of its own, which would be longer
    let mut all = [[0; 32]; 8];
    for (j, digest) in all.iter_mut().enumerate() {
        *digest = output(alone(s, j));
    }
    all
}

// The digests of the eight texts, each in the place of its text.
#[tactic(auto, using(crate::proofs::States::sha256_text))]
pub fn digests(texts: &[[u8; 39]; 8]) -> [[u8; 32]; 8]
    ensures { (j : ℕ) → j < 8 → slice_index_or result j [] ≡ sha256 (slice_index_or texts.now j []) }
{
    let mut w = [u32x8::splat(0); 64];
    load(texts, &mut w);
    outputs(compress_words(initial(), &mut w))
}
