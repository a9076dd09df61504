// Where to stop in a stream of words, so that no byte is read that belongs to the next word.
ghost use Rattle.std.specs.Prelude.{◌≡◌, ◌-◌, ◌≤◌, length, ◌==◌};
ghost use Rattle.tasks.specs.Model.{task_of};
ghost use Rattle.tasks.specs.Reading.{word_at, read_head};
ghost use Rattle.words.specs.Stops.{Stops, field_end, behind_head, behind_count, next_stop};

use tasks::{Fault, Kind, Task, read_head};

fn field_end(there: usize) -> usize
    ensures { result ≡ field_end there }
{
    match there {
        0..=2 => 3,
        3 => 4,
        _ => 6,
    }
}

fn task_stop(so_far: &[u8]) -> usize
    ensures { result ≡ behind_head (length so_far.now) (read_head so_far.now) }
{
    match read_head(so_far) {
        Ok(head) => 6 + 4 * head.pairs as usize,
        Err(Fault::Shape) => field_end(so_far.len()),
        Err(_) => so_far.len(),
    }
}

// In a word whose head ends in a count: behind the head, and then at the end, if the count is that of the trains.
fn count_stop(head: usize, end: usize, trains: u16, so_far: &[u8]) -> usize
    requires { 2 ≤ head }
    ensures { result ≡ behind_count (length so_far.now) head (word_at so_far.now (head - 2) == trains) end }
{
    let Some([.., high, low]) = so_far.get(..head) else {
        return head;
    };
    if u16::from_be_bytes([*high, *low]) == trains {
        end
    } else {
        so_far.len()
    }
}

// How many bytes a word that begins with these is to be read to before it is looked at again. It is complete, or can no longer be good, where so many are there.
#[tactic(auto, using(crate::proofs::StopLaws::stops))]
pub fn next_stop(task: &Task, so_far: &[u8]) -> usize
    ensures answer { result ≡ next_stop (task_of task.now) so_far.now }
    ensures law { Stops (task_of task.now) }
{
    let [kind, ..] = so_far else {
        return 1;
    };
    let trains = task.trains;
    match Kind::try_from(*kind) {
        Ok(Kind::Task) => task_stop(so_far),
        Ok(Kind::Plan) => count_stop(3, 3 + trains as usize, trains, so_far),
        Ok(Kind::Boxes) => count_stop(7, 7 + 32 * trains as usize, trains, so_far),
        Ok(Kind::Ask) => 7,
        Ok(Kind::Opened) => 75,
        Ok(Kind::End) => 6,
        Err(_) => 1,
    }
}
