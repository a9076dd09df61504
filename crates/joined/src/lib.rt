// Planner and asker joined by a faithful line, completeness against any asker, and the worked cases: the definitions are in specs/, the proofs in proofs/. A promise is the contract
// of a function with no code, so that it is checked as any other.
#![tactic(auto)]

ghost use Rattle.std.specs.Prelude.{◌≡◌, ℕ, List};
ghost use Rattle.joined.specs.Answered.{Completes};
ghost use Rattle.joined.specs.Cases.{AllHold, cases, faults};
ghost use Rattle.joined.specs.Joined.{Joins};
ghost use Rattle.joined.specs.Refused.{RefusedEnds};
ghost use Rattle.joined.specs.Side.{JoinedIs};
ghost use Rattle.joined.specs.Sides.{NothingAfter, SidesRun};

use drawing::default_rounds;

// Against any asker, what is properly asked for is opened so that the asker accepts it.
pub fn completeness_holds()
    ensures { Completes }
{}

// Both sides as what they say and hear in turn: the runs of planner and asker are the runs of these, joined runs are such runs, and after the last word that a side
// hears nothing that could come makes a difference; and after a word that is refused nothing more is sent, whatever comes.
pub fn sides_hold()
    ensures runs { (hash : List ℕ → List ℕ) → SidesRun hash }
    ensures joined { JoinedIs }
    ensures after { (hash : List ℕ → List ℕ) → NothingAfter hash }
    ensures refused { (hash : List ℕ → List ℕ) → RefusedEnds hash }
{}

// Joined by a faithful line, both are content with all rounds, or the drawn bytes of a side are too few for one; their books are the same.
pub fn joined_holds()
    ensures { Joins }
{}

// The worked cases, and a case for each fault of words that were read whole. The answer is the number of rounds of the one with three pairs, where nobody says otherwise.
pub fn cases_hold() -> u32
    ensures table { AllHold cases }
    ensures faults { AllHold faults }
    ensures rounds { result ≡ 120 }
{
    default_rounds(3)
}
