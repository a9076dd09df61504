// Two trains that may not share a path.
ghost use Rattle.std.specs.Prelude.{◌≡◌};
ghost use Rattle.tasks.specs.Pair.{pair_of};
ghost use Rattle.tasks.specs.Task.{before};

// Ordered by the first train, then by the second. A struct of its own, since two paths or two texts have no such order.
#[derive(Clone, Copy, Debug, PartialEq, Eq, PartialOrd, Ord)]
pub struct Pair {
    pub first: u16,
    pub second: u16,
}

impl Pair {
    // The order under the name that the definition has for it.
    pub fn before(self, other: Pair) -> bool
        ensures { result ≡ before (pair_of self) (pair_of other) }
    {
        self < other
    }
}
