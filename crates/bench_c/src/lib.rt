// The functions that the benchmark calls from C.
#![tactic(auto)]

ghost use Rattle.std.specs.Prelude.{◌≡◌, ℕ, ◌*◌, ◌<◌, [], ◌++◌, length, drop, if◌then◌else◌, slice_index_or};
ghost use Rattle.sha256.specs.Sha256.{sha256};
ghost use Rattle.boxes.specs.Box.{boxes_of, closable};

use boxes::close_all;
use lanes::digests;
use sha256::{Hasher, digest};

#[repr(C)]
pub struct Digest {
    pub bytes: [u8; 32],
}

#[repr(C)]
pub struct Texts {
    pub texts: [[u8; 39]; 8],
}

#[repr(C)]
pub struct Digests {
    pub digests: [[u8; 32]; 8],
}

// The digest of the message, in one call.
#[unsafe(no_mangle)]
pub extern "C" fn bench_digest(message: &[u8], out: &mut Digest)
    ensures { out.new.bytes ≡ sha256 message.now }
{
    out.bytes = digest(message);
}

fn three_parts(message: &[u8], first: usize, second: usize) -> [u8; 32]
    ensures { result ≡ sha256 message.now }
{
    let b = second.min(message.len());
    let a = first.min(b);
    let mut h = Hasher::new();
    h.update(&message[0..a]);
    h.update(&message[a..b]);
    h.update(&message[b..]);
    h.finish()
}

// The same in three parts, which end at `first` and `second` where the message is as long.
#[unsafe(no_mangle)]
pub extern "C" fn bench_in_parts(message: &[u8], first: usize, second: usize, out: &mut Digest)
    ensures { out.new.bytes ≡ sha256 message.now }
{
    out.bytes = three_parts(message, first, second);
}

// The digests of eight texts.
#[unsafe(no_mangle)]
pub extern "C" fn bench_digests(texts: &Texts, out: &mut Digests)
    ensures { (j : ℕ) → j < 8 → slice_index_or out.new.digests j [] ≡ sha256 (slice_index_or texts.now.texts j []) }
{
    out.digests = digests(&texts.texts);
}

// The boxes of all trains of a round, or false where they don't fit: C takes a bool.
#[unsafe(no_mangle)]
pub extern "C" fn bench_boxes(round: u32, numbers: &[u8], chances: &[u8], out: &mut [u8]) -> bool
    ensures answer { result ≡ closable (length numbers.now) (length chances.now) (length out.old) }
    ensures boxes { out.new ≡ (if result then boxes_of sha256 round 0 numbers.now chances.now ++ drop (32 * length numbers.now) out.old else out.old) }
{
    close_all(round, numbers, chances, out)
}
