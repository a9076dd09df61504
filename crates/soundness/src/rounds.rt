// How many rounds are enough against a planner who knows no plan that fits.
ghost use Rattle.std.specs.Prelude.{◌≡◌, ◌*◌, ◌≤◌};
ghost use Rattle.tasks.specs.Model.{task_of};
ghost use Rattle.soundness.specs.Knows.{KnowsFor};
ghost use Rattle.soundness.specs.Sound.{EnoughFor, pairs_of};

use drawing::default_rounds;
use tasks::Task;

// How many rounds a showing of the task has where nobody says otherwise: 40 for each pair. If no plan fits then, whatever is said to it, the asker is content
// after so many for at most one in 2^40 of all rows of drawn bytes that suffice, but for those along which two texts of one digest are at hand.
// Whatever the task, it is content in at most so many with neither such texts nor a plan that fits at hand from what is said to it.
pub fn enough_rounds(task: &Task) -> u32
    ensures is { result ≡ 40 * pairs_of (task_of task.now) }
    ensures few { result ≤ 163840 }
    ensures enough { EnoughFor (task_of task.now) result }
    ensures knows { KnowsFor (task_of task.now) result }
{
    default_rounds(task.pairs.len() as u16)
}
