// The words of a round, each where it is awaited.
ghost use Rattle.std.specs.Prelude.{◌≡◌, ◌^◌, ◌<◌, OnOk};
ghost use Rattle.tasks.specs.Model.{task_of};
ghost use Rattle.tasks.specs.Reading.{gives};
ghost use Rattle.words.specs.Model.{said};
ghost use Rattle.cutting.specs.Cutting.{on_answer, answered, awaited, hear};
ghost use Rattle.cutting.specs.Laws.{Cuts};
ghost use Rattle.cutting.specs.Phases.{asked_of, awaits_of, answer_of, heard_of};

use super::phases::{Answer, Asked, Awaits, Heard, Round};
use tasks::{Fault, MOST_ROUNDS, Task};
use words::{Word, read_word};

// An Opened, or an End with 0 in its place.
fn on_answer(round: u32, word: Word) -> Result<Answer, Fault>
    ensures { gives answer_of result ≡ on_answer round (said word.entry) }
{
    match word {
        Word::Opened(said, _, _) if said == round => Ok(Answer::Opened),
        Word::End(said, content) if said == round && !content => Ok(Answer::NotContent),
        _ => Err(Fault::NotAwaited),
    }
}

fn answered(asked: Asked, word: Vec<u8>, answer: Answer) -> Heard
    ensures { heard_of result ≡ answered (asked_of asked) word.items (answer_of answer) }
{
    match answer {
        Answer::Opened => Heard::Waits(Awaits::End(asked, word)),
        Answer::NotContent => Heard::Closes(Round {
            asked,
            opened: None,
            end: word,
            content: false,
        }),
    }
}

// One match on what is awaited, and no table of steps, since each case has data of its own.
fn awaited(task: &Task, round: u32, awaits: Awaits, word: Vec<u8>) -> Result<Heard, Fault>
    ensures { gives heard_of result ≡ awaited (task_of task.now) round (awaits_of awaits) word.items }
{
    let said = read_word(task, &word)?;
    match awaits {
        Awaits::Boxes => {
            said.boxes_of(round)?;
            Ok(Heard::Waits(Awaits::Ask(word)))
        }
        Awaits::Ask(boxes) => {
            let pair = said.ask_of(round)?;
            Ok(Heard::Waits(Awaits::Answer(Asked {
                boxes,
                ask: word,
                pair,
            })))
        }
        Awaits::Answer(asked) => {
            let answer = on_answer(round, said)?;
            Ok(answered(asked, word, answer))
        }
        Awaits::End(asked, opened) => {
            let content = said.end_of(round)?;
            Ok(Heard::Closes(Round {
                asked,
                opened: Some(opened),
                end: word,
                content,
            }))
        }
        Awaits::Nothing => Err(Fault::NotAwaited),
    }
}

// Task, round and word one by one: two functions have them, this and `awaited`.
// The word of this round for which this is awaited, or its fault. So the words of a showing are cut into rounds.
pub fn hear(task: &Task, round: u32, awaits: Awaits, word: Vec<u8>) -> Result<Heard, Fault>
    ensures answer { gives heard_of result ≡ hear (task_of task.now) round (awaits_of awaits) word.items }
    ensures few { OnOk result (round < 2 ^ 24) }
    ensures cuts { Cuts (task_of task.now) }
{
    let heard = awaited(task, round, awaits, word)?;
    if round >= MOST_ROUNDS {
        return Err(Fault::TooManyRounds);
    }
    Ok(heard)
}
