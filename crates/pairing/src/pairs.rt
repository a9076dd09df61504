// The paths of a pair's two trains.
ghost use Rattle.std.specs.Prelude.{◌≡◌};
ghost use Rattle.tasks.specs.Model.{plan_of};
ghost use Rattle.tasks.specs.Pair.{pair_of};
ghost use Rattle.pairing.specs.Pairs.{paths_of, partners_for};

use super::plans::Plans;
use paths::{Partners, TwoPaths};
use tasks::{Pair, Plan, path_of};

impl Plans {
    // The paths that the second plan gives the two trains, with those of the first plan as partners.
    pub(super) fn partners(&self, pair: Pair) -> Partners
        ensures { result ≡ partners_for (plan_of self.now.first) (plan_of self.now.second) (pair_of pair) }
    {
        Partners {
            from: paths_of(&self.second, pair),
            to: paths_of(&self.first, pair),
        }
    }
}

fn paths_of(plan: &Plan, pair: Pair) -> TwoPaths
    ensures { result ≡ paths_of (plan_of plan.now) (pair_of pair) }
{
    TwoPaths {
        first: path_of(plan, pair.first),
        second: path_of(plan, pair.second),
    }
}
