// Words read from bytes, each by the form of its kind. Task and bytes come one by one, since nothing ties the two; and bytes are taken apart by `let .. else`, a form
// that the project keeps in readers.
ghost use Rattle.std.specs.Prelude.{◌≡◌, drop};
ghost use Rattle.boxes.specs.Model.{opening_of};
ghost use Rattle.tasks.specs.Model.{task_of};
ghost use Rattle.tasks.specs.Reading.{gives};
ghost use Rattle.words.specs.Model.{said};
ghost use Rattle.words.specs.Reading.{opening_at, read_task_word, read_plan_word, read_boxes, read_ask, read_opened, read_end, read_word};
ghost use Rattle.words.specs.Writing.{WordLaw};

use super::word::Word;
use boxes::Opening;
use tasks::{Fault, Kind, Task, check_plan, check_task};

fn read_task_word(bytes: &[u8]) -> Result<Word<'_>, Fault>
    ensures { gives said result ≡ read_task_word bytes.now }
{
    check_task(bytes)?;
    Ok(Word::Task(bytes))
}

fn read_plan_word<'a>(task: &Task, bytes: &'a [u8]) -> Result<Word<'a>, Fault>
    ensures { gives said result ≡ read_plan_word (task_of task.now) bytes.now }
{
    check_plan(task, bytes)?;
    Ok(Word::Plan(&bytes[3..]))
}

// What stands behind the head of the Boxes.
pub fn behind_head(boxes: &[u8]) -> &[u8]
    ensures { result.now ≡ drop 7 boxes.now }
{
    boxes.get(7..).unwrap_or(&[])
}

fn read_boxes(trains: u16, bytes: &[u8]) -> Result<Word<'_>, Fault>
    ensures { gives said result ≡ read_boxes trains bytes.now }
{
    let [_, a, b, c, d, high, low, ..] = bytes else {
        return Err(Fault::Shape);
    };
    if bytes.len() != 7 + 32 * trains as usize || u16::from_be_bytes([*high, *low]) != trains {
        return Err(Fault::Shape);
    }
    Ok(Word::Boxes(u32::from_be_bytes([*a, *b, *c, *d]), behind_head(bytes)))
}

fn read_ask(bytes: &[u8]) -> Result<Word<'_>, Fault>
    ensures { gives said result ≡ read_ask bytes.now }
{
    let [_, a, b, c, d, high, low] = bytes else {
        return Err(Fault::Shape);
    };
    Ok(Word::Ask(
        u32::from_be_bytes([*a, *b, *c, *d]),
        u16::from_be_bytes([*high, *low]),
    ))
}

// The chance is copied, since no proof is made of a value whose array is matched out of lent bytes, as `chance @ ..` in `*bytes`.
fn opening_in(bytes: &[u8; 35]) -> Opening
    ensures { opening_of result ≡ opening_at bytes.now 0 }
{
    let [high, low, number, ..] = bytes;
    let mut chance = [0; 32];
    chance.copy_from_slice(&bytes[3..]);
    Opening {
        train: u16::from_be_bytes([*high, *low]),
        number: *number,
        chance,
    }
}

fn read_opened(bytes: &[u8]) -> Result<Word<'_>, Fault>
    ensures { gives said result ≡ read_opened bytes.now }
{
    let [_, a, b, c, d, openings @ ..] = bytes else {
        return Err(Fault::Shape);
    };
    let ([first, second], []) = openings.as_chunks() else {
        return Err(Fault::Shape);
    };
    Ok(Word::Opened(
        u32::from_be_bytes([*a, *b, *c, *d]),
        opening_in(first),
        opening_in(second),
    ))
}

fn read_end(bytes: &[u8]) -> Result<Word<'_>, Fault>
    ensures { gives said result ≡ read_end bytes.now }
{
    let [_, a, b, c, d, content] = bytes else {
        return Err(Fault::Shape);
    };
    if *content > 1 {
        return Err(Fault::Shape);
    }
    Ok(Word::End(u32::from_be_bytes([*a, *b, *c, *d]), *content == 1))
}

// The word that these bytes are in a showing of the task, or the first fault.
pub fn read_word<'a>(task: &Task, bytes: &'a [u8]) -> Result<Word<'a>, Fault>
    ensures answer { gives said result ≡ read_word (task_of task.now) bytes.now }
    ensures law { WordLaw (task_of task.now) }
{
    let [kind, ..] = bytes else {
        return Err(Fault::Shape);
    };
    match Kind::try_from(*kind)? {
        Kind::Task => read_task_word(bytes),
        Kind::Plan => read_plan_word(task, bytes),
        Kind::Boxes => read_boxes(task.trains, bytes),
        Kind::Ask => read_ask(bytes),
        Kind::Opened => read_opened(bytes),
        Kind::End => read_end(bytes),
    }
}
