// Plans tested whether they fit.
ghost use Rattle.std.specs.Prelude.{◌≡◌};
ghost use Rattle.tasks.specs.Model.{task_of, plan_of};
ghost use Rattle.tasks.specs.Reading.{gives};
ghost use Rattle.fitting.specs.Testing.{TellsPair};
ghost use Rattle.pairing.specs.Plans.{both_of, tested_both, told};

use super::plans::Plans;
use fitting::test_plan;
use tasks::{Fault, Plan, Task};

impl Plans {
    // A task and two plans that fit it, or the first fault; where a plan doesn't fit, with the first pair that it fails.
    pub fn new(task: Task, first: Plan, second: Plan) -> Result<Plans, Fault>
        ensures answer { gives both_of result ≡ tested_both (task_of task) (plan_of first) (plan_of second) }
        ensures pair { TellsPair (task_of task) (told (task_of task) (plan_of first) (plan_of second)) result }
    {
        test_plan(&task, &first)?;
        test_plan(&task, &second)?;
        Ok(Plans {
            task,
            first,
            second,
        })
    }
}
