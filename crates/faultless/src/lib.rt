// An asker's words always pass: what the judge tells of the asker's runs, whatever the planner does. The definitions are in specs/, the proofs in proofs/. A
// promise is the contract of a function with no code, so that it is checked as any other.
#![tactic(auto)]

ghost use Rattle.std.specs.Prelude.{ℕ, List};
ghost use Rattle.faultless.specs.Examples.{Examples};
ghost use Rattle.faultless.specs.Faultless.{Faultless};

// The asker's words fit its book's last digest, and what it was content with, and what not, is told so: with any function in the place of SHA-256.
pub fn faultless_holds()
    ensures { (hash : List ℕ → List ℕ) → Faultless hash }
{}

// Five runs and what is told of them, computed.
pub fn examples_hold()
    ensures { Examples }
{}
