// An honest planner can't be blamed: what the judge tells of the planner's runs, whatever the asker does. The definitions are in specs/, the proofs in proofs/. A
// promise is the contract of a function with no code, so that it is checked as any other.
#![tactic(auto)]

ghost use Rattle.std.specs.Prelude.{ℕ, List};
ghost use Rattle.sha256.specs.Sha256.{sha256};
ghost use Rattle.book.specs.Chain.{Sized};
ghost use Rattle.blameless.specs.Blameless.{Blameless};
ghost use Rattle.blameless.specs.Examples.{Examples};

// The planner's transcript, book, plan and drawn bytes pass, and no other words are judged with its last digest, unless two texts of one digest are at hand: with
// SHA-256, and with any function to 32 numbers in its place.
pub fn blameless_holds()
    ensures blameless { Blameless sha256 }
    ensures any_hash { (hash : List ℕ → List ℕ) → Sized hash → Blameless hash }
{}

// Three runs and what is told of them, computed.
pub fn examples_hold()
    ensures { Examples }
{}
