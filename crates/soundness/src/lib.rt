// Soundness of the asker's steps over whole runs, against any planner: the definitions are in specs/, the proofs in proofs/. A promise is the contract
// of a function with no code, so that it is checked as any other.
#![tactic(auto)]

ghost use Rattle.std.specs.Prelude.{ℕ, List};
ghost use Rattle.round.specs.Line.{Other};
ghost use Rattle.soundness.specs.Examples.{Examples};
ghost use Rattle.soundness.specs.Found.{FoundBoxes};
ghost use Rattle.soundness.specs.Knows.{KnowsAlong, KnowsAlongDrawn, KnowsEnough, OneEach};
ghost use Rattle.soundness.specs.ReadOff.{ReadOff};
ghost use Rattle.soundness.specs.Questioned.{RunsOn};
ghost use Rattle.soundness.specs.Texts.{PutsFew};
ghost use Rattle.soundness.specs.Sound.{Sound, SoundAlong, SoundAlongDrawn, SoundDrawn, SoundAlongEnough, SoundEnough};

mod rounds;

pub use rounds::enough_rounds;

// A run over drawn bytes is a run over the questions that they give.
pub fn runs_hold()
    ensures { RunsOn }
{}

// Where no plan fits, whatever a planner says: it passes in few ways to ask, or two texts of one digest are at hand; and so of all drawn bytes. The texts are of
// one box that it opened in two ways. And of any task: it passes in few ways along which neither such texts nor a plan that fits are read off its own answers.
pub fn soundness_holds()
    ensures along { SoundAlong }
    ensures whole { Sound }
    ensures along_drawn { SoundAlongDrawn }
    ensures whole_drawn { SoundDrawn }
    ensures along_enough { SoundAlongEnough }
    ensures whole_enough { SoundEnough }
    ensures found { FoundBoxes }
    ensures few { (hash : List ℕ → List ℕ) (other : Other) → PutsFew hash other }
    ensures knows { KnowsAlong }
    ensures knows_drawn { KnowsAlongDrawn }
    ensures knows_enough { KnowsEnough }
    ensures knows_few { (hash : List ℕ → List ℕ) (other : Other) → OneEach hash other }
{}

// The bound is met, and the texts are found: two planners, computed. And a plan is read off where it is known: three more.
pub fn examples_hold()
    ensures cheats { Examples }
    ensures read_off { ReadOff }
{}
