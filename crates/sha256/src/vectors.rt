// Eight words side by side, in the lanes of a vector.
ghost use Rattle.std.specs.Prelude.{slice_index};
ghost use Rattle.std.proofs.Common.{rules};

use crate::words::Words;
use std::simd::prelude::*;

impl Words for u32x8 {
    ghost lanes = { 8 };

    ghost lane = { λ x j. slice_index x j };

    ghost is_small = { Prim.search rules };

    fn splat(x: u32) -> u32x8 {
        u32x8::splat(x)
    }

    fn plus(self, other: u32x8) -> u32x8 {
        self + other
    }

    fn and(self, other: u32x8) -> u32x8 {
        self & other
    }

    fn xor(self, other: u32x8) -> u32x8 {
        self ^ other
    }

    fn not(self) -> u32x8 {
        !self
    }

    #[tactic(auto, using(crate::proofs::Lanes::lane_laws))]
    fn shr(self, n: u32) -> u32x8 {
        self >> u32x8::splat(n)
    }

    #[tactic(auto, using(crate::proofs::Lanes::lane_laws))]
    fn rotr(self, n: u32) -> u32x8 {
        (self >> u32x8::splat(n)) | (self << u32x8::splat(32 - n))
    }
}
