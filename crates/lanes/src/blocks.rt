// The blocks of eight texts, each of which is one block with its padding.
ghost use Rattle.std.specs.Prelude.{◌≡◌, ℕ, ◌<◌, [], length, take, slice_index_or};
ghost use Rattle.sha256.specs.Lane.{column};
ghost use Rattle.sha256.specs.Sha256.{padded, word as word_of, schedule};
ghost use Rattle.lanes.specs.Lane.{lane, Sized, WordsAt};

use std::array;
use std::simd::prelude::*;

// Word t of a text, one of its nine whole words.
#[tactic(auto, using(crate::proofs::States::word_front, sha256::proofs::Bytes::word_at))]
fn word(text: &[u8; 39], t: usize) -> u32
    requires { t < 9 }
    ensures { result ≡ word_of (padded text.now) t }
{
    let (quads, _) = text.as_chunks::<4>();
    u32::from_be_bytes(quads[t])
}

// Word 9 of a text: its last three bytes and the byte 0x80 of the padding. One function for this and the whole words would ask at each text which it is.
#[tactic(auto, using(crate::proofs::States::word_last))]
fn last_word(text: &[u8; 39]) -> u32
    ensures value { result ≡ word_of (padded text.now) 9 }
    ensures size { length text.now ≡ 39 }
{
    u32::from_be_bytes([text[36], text[37], text[38], 0x80])
}

fn whole_words(texts: &[[u8; 39]; 8], t: usize) -> u32x8
    requires { t < 9 }
    ensures { WordsAt texts.now t result }
{
    u32x8::from_array(array::from_fn(|j| word(&texts[j], t)))
}

fn last_words(texts: &[[u8; 39]; 8]) -> u32x8
    ensures words { WordsAt texts.now 9 result }
    ensures sized { Sized texts.now }
{
    u32x8::from_array(array::from_fn(|j| last_word(&texts[j])))
}

// Word t of each text's block. After word 9 come zeros, and the number of bits.
#[tactic(auto, using(crate::proofs::States::word_zero, crate::proofs::States::word_size))]
fn words(texts: &[[u8; 39]; 8], last: u32x8, t: usize) -> u32x8
    requires { t < 16 }
    ensures { Sized texts.now → WordsAt texts.now 9 last → WordsAt texts.now t result }
{
    match t {
        0..=8 => whole_words(texts, t),
        9 => last,
        15 => u32x8::splat(312),
        _ => u32x8::splat(0),
    }
}

// Puts the sixteen words of each text's block before those that are computed of them.
#[tactic(auto, using(crate::proofs::States::load_laws))]
pub(crate) fn load(texts: &[[u8; 39]; 8], w: &mut [u32x8; 64])
    ensures sized { Sized texts.now }
    ensures words { (j : ℕ) → j < 8 → take 16 (column lane w.new j) ≡ schedule (padded (slice_index_or texts.now j [])) 0 }
{
    let last = last_words(texts);
    for (t, x) in w[..16].iter_mut().enumerate() {
        *x = words(texts, last, t);
    }
}
