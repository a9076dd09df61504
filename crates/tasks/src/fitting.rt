// Whether a plan fits a task: the first pair that it fails.
ghost use Rattle.std.specs.Prelude.{◌≡◌, ◌==◌};
ghost use Rattle.paths.specs.Plan.{at};
ghost use Rattle.tasks.specs.Fitting.{FirstUnfit};
ghost use Rattle.tasks.specs.Model.{task_of, plan_of};

use super::fault::Unfit;
use super::pair::Pair;
use super::plan::Plan;
use super::task::Task;

// The first pair of the task whose two trains have one path; none where there is no such pair. A train that the plan lacks has path 0.
pub fn first_unfit(task: &Task, plan: &Plan) -> Option<Unfit>
    ensures { FirstUnfit (task_of task.now) (plan_of plan.now) result }
{
    // A loop left by a label, and no `position`: a rule of the project keeps this form here.
    let mut found = None;
    'pairs: for (i, pair) in task.pairs.iter().enumerate() {
        if fails(plan, *pair) {
            found = Some(Unfit {
                pair: i as u16,
                first: pair.first,
                second: pair.second,
            });
            break 'pairs;
        }
    }
    found
}

fn fails(plan: &Plan, pair: Pair) -> bool
    ensures { result ≡ (at (plan_of plan.now) pair.first == at (plan_of plan.now) pair.second) }
{
    path_of(plan, pair.first) == path_of(plan, pair.second)
}

// The path that the plan gives the train, and 0 where it gives none.
pub fn path_of(plan: &Plan, train: u16) -> u8
    ensures { result ≡ at (plan_of plan.now) train }
{
    plan.paths.get(train as usize).copied().unwrap_or(0)
}
