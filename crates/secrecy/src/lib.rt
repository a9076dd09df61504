// The planner's secrecy over whole runs of its steps, against any asker: the definitions are in specs/, the proofs in proofs/. A promise is the contract
// of a function with no code, so that it is checked as any other.
#![tactic(auto)]

ghost use Rattle.std.specs.Prelude.{◌≡◌, ℕ, List, length};
ghost use Rattle.sha256.specs.Sha256.{sha256};
ghost use Rattle.secrecy.specs.Lots.{ByLots, PairsAsCoins};
ghost use Rattle.secrecy.specs.Drawn.{AimsValues};
ghost use Rattle.secrecy.specs.Secrecy.{Secrecy};
ghost use Rattle.secrecy.specs.Simulated.{Simulates};
ghost use Rattle.secrecy.specs.Misses.{GlassShows};

mod beginning;

pub use beginning::start;

// Of any two plans that fit, an asker that doesn't look into the digests sees the same in the planner's run, with drawn bytes paired off one to one, and so
// equally often; and what it sees of a plan that fits is what is told without a plan. So it is with any function in the place of SHA-256 that gives 32 bytes.
// The run over drawn bytes is that over the lots that they give; lots are paired as coins are, and bytes are aimed as values are. With digests that show what
// they are of, an asker that looks would see more.
pub fn secrecy_holds()
    ensures secrecy { Secrecy sha256 }
    ensures any_hash { (hash : List ℕ → List ℕ) → ((x : List ℕ) → length (hash x) ≡ 32) → Secrecy hash }
    ensures simulated { (hash : List ℕ → List ℕ) → ((x : List ℕ) → length (hash x) ≡ 32) → Simulates hash }
    ensures by_lots { ByLots }
    ensures as_coins { PairsAsCoins }
    ensures as_values { AimsValues }
    ensures glass { GlassShows }
{}
