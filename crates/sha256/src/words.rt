// Words, alone or side by side: the operations on them, the six functions, and the table of constants.
ghost use Rattle.std.specs.Prelude.{◌≡◌, ℕ, ◌*◌, ◌^◌, ◌<◌, bit_and, slice_index};
ghost use Rattle.std.specs.Mem.{type_size};
ghost use Rattle.std.proofs.Common.{rules};
ghost use Rattle.sha256.specs.Sha256.{◌⊞◌, ◌⊕◌, NOT, SHR, ROTR, Ch, Maj, Σ0, Σ1, σ0, σ1, K as constants};

// A word, or one of each of several messages side by side, each in its lane. Methods of its own, and no operators of std: their laws are of lanes.
pub trait Words: Copy {
    // how many lanes there are, and the word in lane j
    ghost lanes: { ℕ };

    ghost lane: { Self → ℕ → ℕ };

    fn splat(x: u32) -> Self
        ensures { (j : ℕ) → j < lanes → lane result j ≡ x };

    fn plus(self, other: Self) -> Self
        ensures { (j : ℕ) → j < lanes → lane result j ≡ lane self j ⊞ lane other j };

    fn and(self, other: Self) -> Self
        ensures { (j : ℕ) → j < lanes → lane result j ≡ bit_and (lane self j) (lane other j) };

    fn xor(self, other: Self) -> Self
        ensures { (j : ℕ) → j < lanes → lane result j ≡ lane self j ⊕ lane other j };

    fn not(self) -> Self
        ensures { (j : ℕ) → j < lanes → lane result j ≡ NOT (lane self j) };

    fn shr(self, n: u32) -> Self
        requires { n < 32 }
        ensures { (j : ℕ) → j < lanes → lane result j ≡ SHR n (lane self j) };

    fn rotr(self, n: u32) -> Self
        requires { (0 < n) × (n < 32) }
        ensures { (j : ℕ) → j < lanes → lane result j ≡ ROTR n (lane self j) };

    // an array of 64 values fits in memory
    ghost is_small: { 64 * type_size Self.row < 2 ^ 63 };
}

impl Words for u32 {
    ghost lanes = { 1 };

    ghost lane = { λ x _. x };

    ghost is_small = { Prim.search rules };

    fn splat(x: u32) -> u32 {
        x
    }

    fn plus(self, other: u32) -> u32 {
        self.wrapping_add(other)
    }

    fn and(self, other: u32) -> u32 {
        self & other
    }

    fn xor(self, other: u32) -> u32 {
        self ^ other
    }

    fn not(self) -> u32 {
        !self
    }

    fn shr(self, n: u32) -> u32 {
        self >> n
    }

    fn rotr(self, n: u32) -> u32 {
        self.rotate_right(n)
    }
}

pub const K: [u32; 64] = [
    0x428a2f98, 0x71374491, 0xb5c0fbcf, 0xe9b5dba5, 0x3956c25b, 0x59f111f1, 0x923f82a4, 0xab1c5ed5,
    0xd807aa98, 0x12835b01, 0x243185be, 0x550c7dc3, 0x72be5d74, 0x80deb1fe, 0x9bdc06a7, 0xc19bf174,
    0xe49b69c1, 0xefbe4786, 0x0fc19dc6, 0x240ca1cc, 0x2de92c6f, 0x4a7484aa, 0x5cb0a9dc, 0x76f988da,
    0x983e5152, 0xa831c66d, 0xb00327c8, 0xbf597fc7, 0xc6e00bf3, 0xd5a79147, 0x06ca6351, 0x14292967,
    0x27b70a85, 0x2e1b2138, 0x4d2c6dfc, 0x53380d13, 0x650a7354, 0x766a0abb, 0x81c2c92e, 0x92722c85,
    0xa2bfe8a1, 0xa81a664b, 0xc24b8b70, 0xc76c51a3, 0xd192e819, 0xd6990624, 0xf40e3585, 0x106aa070,
    0x19a4c116, 0x1e376c08, 0x2748774c, 0x34b0bcb5, 0x391c0cb3, 0x4ed8aa4a, 0x5b9cca4f, 0x682e6ff3,
    0x748f82ee, 0x78a5636f, 0x84c87814, 0x8cc70208, 0x90befffa, 0xa4506ceb, 0xbef9a3f7, 0xc67178f2,
];

#[tactic(auto, unfolding(crate::specs::Sha256::Ch))]
pub(crate) fn ch<W: Words>(x: W, y: W, z: W) -> W
    ensures { (j : ℕ) → j < W.lanes → W.lane result j ≡ Ch (W.lane x j) (W.lane y j) (W.lane z j) }
{
    x.and(y).xor(x.not().and(z))
}

#[tactic(auto, unfolding(crate::specs::Sha256::Maj))]
pub(crate) fn maj<W: Words>(x: W, y: W, z: W) -> W
    ensures { (j : ℕ) → j < W.lanes → W.lane result j ≡ Maj (W.lane x j) (W.lane y j) (W.lane z j) }
{
    x.and(y).xor(x.and(z)).xor(y.and(z))
}

// Four functions and not one of the three turns, since the standard names four.
#[tactic(auto, unfolding(crate::proofs::Names::big_sigma0))]
pub(crate) fn big_sigma0<W: Words>(x: W) -> W
    ensures { (j : ℕ) → j < W.lanes → W.lane result j ≡ Σ0 (W.lane x j) }
{
    x.rotr(2).xor(x.rotr(13)).xor(x.rotr(22))
}

#[tactic(auto, unfolding(crate::proofs::Names::big_sigma1))]
pub(crate) fn big_sigma1<W: Words>(x: W) -> W
    ensures { (j : ℕ) → j < W.lanes → W.lane result j ≡ Σ1 (W.lane x j) }
{
    x.rotr(6).xor(x.rotr(11)).xor(x.rotr(25))
}

#[tactic(auto, unfolding(crate::proofs::Names::small_sigma0))]
pub(crate) fn small_sigma0<W: Words>(x: W) -> W
    ensures { (j : ℕ) → j < W.lanes → W.lane result j ≡ σ0 (W.lane x j) }
{
    x.rotr(7).xor(x.rotr(18)).xor(x.shr(3))
}

#[tactic(auto, unfolding(crate::proofs::Names::small_sigma1))]
pub(crate) fn small_sigma1<W: Words>(x: W) -> W
    ensures { (j : ℕ) → j < W.lanes → W.lane result j ≡ σ1 (W.lane x j) }
{
    x.rotr(17).xor(x.rotr(19)).xor(x.shr(10))
}

#[tactic(auto, unfolding(crate::specs::Sha256::K))]
pub(crate) fn constant(t: usize) -> u32
    requires { t < 64 }
    ensures { result ≡ slice_index constants t }
{
    K[t]
}
