// The pair that a question names.
ghost use Rattle.std.specs.Prelude.{◌≡◌};
ghost use Rattle.tasks.specs.Model.{task_of};
ghost use Rattle.tasks.specs.Pair.{pair_of};
ghost use Rattle.tasks.specs.Reading.{gives};
ghost use Rattle.fitting.specs.Pairs.{asked_pair};

use tasks::{Fault, Pair, Task};

// The pair with this number, or fault 7.
pub fn pair_at(task: &Task, number: u16) -> Result<Pair, Fault>
    ensures { gives pair_of result ≡ asked_pair (task_of task.now) number }
{
    task.pairs
        .get(number as usize)
        .copied()
        .ok_or(Fault::NoPair)
}
