// Plans tested whether they fit.
ghost use Rattle.std.specs.Prelude.{◌≡◌};
ghost use Rattle.paths.specs.Plan.{all_below};
ghost use Rattle.tasks.specs.Model.{task_of, plan_of};
ghost use Rattle.tasks.specs.Reading.{looks};
ghost use Rattle.fitting.specs.Testing.{tested, TellsPair};

use tasks::{Fault, Plan, Task, first_unfit};

// Whether the plan is one of the task and fits it, or the first fault; where it doesn't fit, with the first pair that it fails.
pub fn test_plan(task: &Task, plan: &Plan) -> Result<(), Fault>
    ensures answer { looks result ≡ tested (task_of task.now) (plan_of plan.now) }
    ensures pair { TellsPair (task_of task.now) (plan_of plan.now) result }
{
    if plan.paths.len() != task.trains as usize {
        return Err(Fault::Shape);
    }
    if !all_below(task.paths, plan.paths.as_slice()) {
        return Err(Fault::Range);
    }
    match first_unfit(task, plan) {
        Some(unfit) => Err(Fault::Unfit(unfit)),
        None => Ok(()),
    }
}

// Is each of these paths below so many?
fn all_below(count: u8, paths: &[u8]) -> bool
    ensures { result ≡ all_below count paths.now }
{
    paths.iter().all(|path| *path < count)
}
