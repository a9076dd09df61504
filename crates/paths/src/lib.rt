// Tasks and plans, rounds with boxes as terms, cheating planners, and what is promised of them: the definitions are in specs/, the proofs in proofs/. And orders
// of paths, with their pairing. A promise is the contract of a function with no code, so that it is checked as any other.
#![tactic(auto)]

ghost use Rattle.std.specs.Prelude.{◌≡◌};
ghost use Rattle.paths.specs.Promise.{Main, Passes, Reads, Caught};
ghost use Rattle.paths.specs.Paired.{PairsCoin, PairsEach, PairsBack, PairsAlike};
ghost use Rattle.paths.specs.Stop.{StopsAlike};
ghost use Rattle.paths.specs.Simulated.{Simulates};
ghost use Rattle.paths.specs.Clip.{ReadsClipped};
ghost use Rattle.paths.specs.Count.{AsksCounted};
ghost use Rattle.paths.specs.Misses.{OrderTwice, TurnsShow, SamePair};

mod order;
mod orders;
mod partners;

pub use order::Order;
pub use partners::{Partners, TwoPaths};

pub const MOST_PAIRS: u16 = 4096;

// The most pairs that a task may have, told as a promise; code takes the constant.
pub fn most_pairs() -> u32
    ensures { result ≡ 4096 }
{
    u32::from(MOST_PAIRS)
}

// The main promise.
pub fn main_holds()
    ensures { Main }
{}

// Its parts, each for itself; boxes that pass hold a plan even where trains of no pair hold anything; and all ways to ask are counted.
pub fn parts_hold()
    ensures passes { Passes }
    ensures reads { Reads }
    ensures clipped { ReadsClipped }
    ensures caught { Caught }
    ensures counted { AsksCounted }
{}

// The pairing of coins, by which askers see the same of any two plans that fit, also askers who stop or are refused; and by which what they see of a plan that
// fits is what is told without a plan.
pub fn pairing_holds()
    ensures coin { PairsCoin }
    ensures each { PairsEach }
    ensures back { PairsBack }
    ensures alike { PairsAlike }
    ensures stops { StopsAlike }
    ensures simulated { Simulates }
{}

// What would go wrong with an order used twice, with orders that only turn, and with always the same question.
pub fn misses_hold()
    ensures twice { OrderTwice }
    ensures turns { TurnsShow }
    ensures same { SamePair }
{}
