// What the plan and the drawn bytes give in a round.
ghost use Rattle.std.specs.Prelude.{◌≡◌, ◌*◌, true, length};
ghost use Rattle.paths.specs.Plan.{fits};
ghost use Rattle.tasks.specs.Model.{task_of, plan_of};

use super::looking::Closed;
use lots::Lot;
use tasks::Plan;

// The closed round that is drawn again, with the plan and the lot of the round.
#[derive(Clone, Copy)]
pub(super) struct Given<'a> {
    pub(super) closed: Closed<'a>,
    pub(super) plan: &'a Plan,
    pub(super) lot: Lot<'a>,
    ghost plan_fits: { fits (task_of closed.task.now) (plan_of plan.now) ≡ true },
    ghost all_chances: { length lot.chances.now ≡ 32 * closed.task.now.trains },
}
