// How the program of the asker begins.
ghost use Rattle.std.specs.Prelude.{◌≡◌, ℕ, List, IfOk};
ghost use Rattle.sha256.specs.Sha256.{sha256};
ghost use Rattle.tasks.specs.Model.{task_of};
ghost use Rattle.asking.specs.Conduct.{Conduct};
ghost use Rattle.asking.specs.Model.{awaiting_of};
ghost use Rattle.round.specs.Line.{Other};
ghost use Rattle.soundness.specs.Found.{FoundBoxes};
ghost use Rattle.soundness.specs.Knows.{KnowsAlong, KnowsAlongDrawn, KnowsEnough, OneEach};
ghost use Rattle.soundness.specs.Questioned.{RunsOn};
ghost use Rattle.soundness.specs.Texts.{PutsFew};
ghost use Rattle.soundness.specs.Sound.{SoundAlong, Sound, SoundAlongDrawn, SoundDrawn, SoundAlongEnough, SoundEnough};
ghost use Rattle.joined.specs.Joined.{Joins};
ghost use Rattle.joined.specs.Cases.{AllHold, cases, faults};
ghost use Rattle.joined.specs.Refused.{RefusedEnds};
ghost use Rattle.joined.specs.Side.{JoinedIs};
ghost use Rattle.joined.specs.Sides.{NothingAfter, SidesRun};
ghost use Rattle.faultless.specs.Faultless.{Faultless};

use asking::Awaiting;
use std::alloc::{AllocError, Global};
use tasks::{Rounds, Task};

// An asker who wants to see so many rounds of the task. Of its runs it is promised: they keep to the asker's conduct; where no
// plan fits, whatever is said to it, it is content in few of the ways to ask, or two texts of one digest are at hand, and so of the bytes that it draws; whatever
// the task, a planner with whom it is content in more ways has a plan that fits, which is computed from that planner's own answers, or such texts; with an honest
// planner both are content, unless drawn bytes are too few; after a refusal nothing more is sent; and the judge passes what it records.
#[tactic(auto, using(crate::proofs::Told::asker_laws))]
pub fn start_asker(heap: Global, task: Task, rounds: Rounds) -> Result<Awaiting, AllocError>
    ensures state { IfOk result (λ s. awaiting_of s ≡ record { task = task_of task; rounds = rounds.count }) }
    ensures conduct { (hash : List ℕ → List ℕ) → Conduct hash (task_of task) rounds.count }
    ensures runs_on { RunsOn }
    ensures along { SoundAlong }
    ensures sound { Sound }
    ensures along_drawn { SoundAlongDrawn }
    ensures drawn { SoundDrawn }
    ensures found { FoundBoxes }
    ensures few { (other : Other) → PutsFew sha256 other }
    ensures along_enough { SoundAlongEnough }
    ensures enough { SoundEnough }
    ensures knows { KnowsAlong }
    ensures knows_drawn { KnowsAlongDrawn }
    ensures knows_enough { KnowsEnough }
    ensures knows_few { (other : Other) → OneEach sha256 other }
    ensures joined { Joins }
    ensures runs { SidesRun sha256 }
    ensures joins { JoinedIs }
    ensures after { NothingAfter sha256 }
    ensures refused { RefusedEnds sha256 }
    ensures cases { AllHold cases }
    ensures faults { AllHold faults }
    ensures faultless { Faultless sha256 }
{
    Awaiting::start(heap, task, rounds)
}
