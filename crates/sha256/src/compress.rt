// One block of each message: the message schedule, the sixty-four rounds and the sum.
ghost use Rattle.std.specs.Prelude.{◌≡◌, ℕ, ◌+◌, ◌<◌, ◌≤◌, List, take};
ghost use Rattle.sha256.specs.declared.state.State.{State};
ghost use Rattle.sha256.specs.Lane.{column, state_at};
ghost use Rattle.sha256.specs.Sha256.{H0, next as next_of, schedule as scheduled, step as stepped, steps, sum as sum_of, compress as compressed};

use crate::state::State;
use crate::words::{Words, big_sigma0, big_sigma1, ch, constant, maj, small_sigma0, small_sigma1};

// The hash value before the first block, of each message.
#[tactic(auto, using(crate::proofs::Lanes::same_states), unfolding(crate::specs::Sha256::H0, crate::specs::Lane::state_at))]
pub fn initial<W: Words>() -> State<W>
    ensures { (j : ℕ) → j < W.lanes → state_at W.lane result j ≡ H0 }
{
    State {
        a: W::splat(0x6a09e667),
        b: W::splat(0xbb67ae85),
        c: W::splat(0x3c6ef372),
        d: W::splat(0xa54ff53a),
        e: W::splat(0x510e527f),
        f: W::splat(0x9b05688c),
        g: W::splat(0x1f83d9ab),
        h: W::splat(0x5be0cd19),
    }
}

#[tactic(auto, using(crate::proofs::Lanes::in_column), unfolding(crate::specs::Sha256::next))]
fn next<W: Words>(w: &[W; 64], n: usize) -> W
    requires { n < 48 }
    ensures { (j : ℕ) → j < W.lanes → W.lane result j ≡ next_of (column W.lane w.now j) n }
{
    small_sigma1(w[n + 14])
        .plus(w[n + 9])
        .plus(small_sigma0(w[n + 1]))
        .plus(w[n])
}

// The next word of the schedule, at its place.
#[tactic(auto, using(crate::proofs::Lanes::column_words))]
fn put_next<W: Words>(w: &mut [W; 64], n: usize)
    requires { n < 48 }
    ensures { (j : ℕ) (b : List ℕ) → j < W.lanes → take (n + 16) (column W.lane w.old j) ≡ scheduled b n → take (n + 1 + 16) (column W.lane w.new j) ≡ scheduled b (n + 1) }
{
    let x = next(w, n);
    w[n + 16] = x;
}

// Four words more at a turn, so that a word may be at hand still for those after it. A loop of one word at a turn was not measured.
fn put_four<W: Words>(w: &mut [W; 64], n: usize)
    requires { n + 4 ≤ 48 }
    ensures { (j : ℕ) (b : List ℕ) → j < W.lanes → take (n + 16) (column W.lane w.old j) ≡ scheduled b n → take (n + 4 + 16) (column W.lane w.new j) ≡ scheduled b (n + 4) }
{
    put_next(w, n);
    put_next(w, n + 1);
    put_next(w, n + 2);
    put_next(w, n + 3);
}

// The words after the first sixteen.
fn put_all<W: Words>(w: &mut [W; 64])
    ensures { (j : ℕ) (b : List ℕ) → j < W.lanes → take 16 (column W.lane w.old j) ≡ scheduled b 0 → take 64 (column W.lane w.new j) ≡ scheduled b 48 }
{
    for n in (0..48).step_by(4) {
        put_four(w, n);
    }
}

#[tactic(auto, using(crate::proofs::Lanes::same_states), unfolding(crate::specs::Sha256::step, crate::specs::Sha256::T1, crate::specs::Sha256::T2, crate::specs::Lane::state_at))]
fn step<W: Words>(s: State<W>, k: u32, w: W) -> State<W>
    ensures { (j : ℕ) → j < W.lanes → state_at W.lane result j ≡ stepped (state_at W.lane s j) k (W.lane w j) }
{
    let t1 = s
        .h
        .plus(big_sigma1(s.e))
        .plus(ch(s.e, s.f, s.g))
        .plus(W::splat(k))
        .plus(w);
    let t2 = big_sigma0(s.a).plus(maj(s.a, s.b, s.c));
    State {
        a: t1.plus(t2),
        b: s.a,
        c: s.b,
        d: s.c,
        e: s.d.plus(t1),
        f: s.e,
        g: s.f,
        h: s.g,
    }
}

// Eight rounds from round t on, so that the compiler can rename the words and move none. Before this code was written, a loop of one round at a turn was tried,
// and was a third slower; as the code stands it was not measured.
#[tactic(auto, using(crate::proofs::Lanes::lane_more))]
fn eight_steps<W: Words>(s: State<W>, w: &[W; 64], t: usize) -> State<W>
    requires { t + 8 ≤ 64 }
    ensures { (j : ℕ) → j < W.lanes → (start : State ℕ) → state_at W.lane s j ≡ steps start (column W.lane w.now j) t → state_at W.lane result j ≡ steps start (column W.lane w.now j) (t + 8) }
{
    let s1 = step(s, constant(t), w[t]);
    let s2 = step(s1, constant(t + 1), w[t + 1]);
    let s3 = step(s2, constant(t + 2), w[t + 2]);
    let s4 = step(s3, constant(t + 3), w[t + 3]);
    let s5 = step(s4, constant(t + 4), w[t + 4]);
    let s6 = step(s5, constant(t + 5), w[t + 5]);
    let s7 = step(s6, constant(t + 6), w[t + 6]);
    step(s7, constant(t + 7), w[t + 7])
}

#[tactic(auto, using(crate::proofs::Lanes::same_states), unfolding(crate::specs::Sha256::sum, crate::specs::Lane::state_at))]
fn sum<W: Words>(s: State<W>, r: State<W>) -> State<W>
    ensures { (j : ℕ) → j < W.lanes → state_at W.lane result j ≡ sum_of (state_at W.lane s j) (state_at W.lane r j) }
{
    State {
        a: s.a.plus(r.a),
        b: s.b.plus(r.b),
        c: s.c.plus(r.c),
        d: s.d.plus(r.d),
        e: s.e.plus(r.e),
        f: s.f.plus(r.f),
        g: s.g.plus(r.g),
        h: s.h.plus(r.h),
    }
}

// The hash values after a block of each message, whose sixteen words are the first of w. The others are filled.
#[tactic(auto, using(crate::proofs::Rounds::no_steps, crate::proofs::Rounds::all_steps))]
pub fn compress_words<W: Words>(s: State<W>, w: &mut [W; 64]) -> State<W>
    ensures { (j : ℕ) → j < W.lanes → (b : List ℕ) → take 16 (column W.lane w.old j) ≡ scheduled b 0 → state_at W.lane result j ≡ compressed (state_at W.lane s j) b }
{
    put_all(w);
    let mut r = s;
    for t in (0..64).step_by(8) {
        r = eight_steps(r, w, t);
    }
    sum(s, r)
}
