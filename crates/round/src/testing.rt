// The test of a word that is to open the two boxes asked for.
ghost use Rattle.std.specs.Prelude.{◌≡◌, ℕ, List};
ghost use Rattle.sha256.specs.Sha256.{sha256};
ghost use Rattle.tasks.specs.Model.{task_of};
ghost use Rattle.tasks.specs.Pair.{pair_of};
ghost use Rattle.tasks.specs.Reading.{looks};
ghost use Rattle.paths.specs.Show.{pair_at};
ghost use Rattle.boxes.specs.Model.{opening_of};
ghost use Rattle.words.specs.Model.{said};
ghost use Rattle.round.specs.Laws.{TellsLowest};
ghost use Rattle.round.specs.Round.{opens_in, content_with, test_opened};

use super::opening::part_of;
use boxes::{Opening, opens};
use fitting::pair_at;
use tasks::{Fault, Pair, Task};
use words::Word;

// Does the opening open its train's box? A box that isn't there is not opened.
fn opens_in(round: u32, digests: &[u8], opening: Opening) -> bool
    ensures { result ≡ opens_in sha256 round digests.now (opening_of opening) }
{
    part_of(digests, opening.train).is_some_and(|digest| opens(digest, round, opening))
}

// The body of `are_two` of `paths`, of two paths where these are two numbers out of boxes. It stands here again, since the asker's test shares no step with the
// pairing.
fn content_with(paths: u8, first: u8, second: u8) -> bool
    ensures { result ≡ content_with paths first second }
{
    first < paths && second < paths && first != second
}

// The pair with this number, and 0-0 where it isn't there, as the definition reads it. The asker draws it among those that are there, and
// the judge looks it up before.
fn asked_pair(task: &Task, pair: u16) -> Pair
    ensures { pair_of result ≡ pair_at (task_of task.now) pair }
{
    pair_at(task, pair).unwrap_or(Pair {
        first: 0,
        second: 0,
    })
}

// Whether the word opens the two boxes of the pair asked for in this round, of a task whose Boxes had these digests, so that the asker is content; or the lowest
// fault that applies.
#[tactic(auto, using(crate::proofs::Faults::tells_lowest))]
pub fn test_opened(
    task: &Task,
    round: u32,
    pair: u16,
    digests: &[u8],
    word: Word,
) -> Result<(), Fault>
    ensures answer { looks result ≡ test_opened sha256 (task_of task.now) round pair digests.now (said word.entry) }
    ensures lowest { (hash : List ℕ → List ℕ) → TellsLowest hash }
{
    let Word::Opened(said, first, second) = word else {
        return Err(Fault::NotAwaited);
    };
    if first.train >= task.trains || second.train >= task.trains {
        return Err(Fault::Range);
    }
    if said != round {
        return Err(Fault::NotAwaited);
    }
    let asked = asked_pair(task, pair);
    if first.train != asked.first || second.train != asked.second {
        return Err(Fault::OtherTrains);
    }
    if !opens_in(round, digests, first) || !opens_in(round, digests, second) {
        return Err(Fault::NotOpened);
    }
    if !content_with(task.paths, first.number, second.number) {
        return Err(Fault::BadNumber);
    }
    Ok(())
}
