// The word by which a pair is asked for.
ghost use Rattle.std.specs.Prelude.{◌≡◌};
ghost use Rattle.tasks.specs.Model.{task_of};
ghost use Rattle.tasks.specs.Reading.{gives};
ghost use Rattle.pairing.specs.Asking.{read_ask};

use fitting::pair_at;
use tasks::{Fault, Task};
use words::read_word;

// The number of the pair that these bytes ask for in this round, or the first fault.
pub fn ask_in(task: &Task, round: u32, bytes: &[u8]) -> Result<u16, Fault>
    ensures { gives (λ i. i) result ≡ read_ask (task_of task.now) round bytes.now }
{
    let number = read_word(task, bytes)?.ask_of(round)?;
    pair_at(task, number)?;
    Ok(number)
}
