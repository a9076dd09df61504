// Orders: a row in which each of 1 to 64 paths stands once.
ghost use Rattle.std.specs.Prelude.{◌≡◌, ◌≤◌, true, take};
ghost use Rattle.paths.specs.Plan.{different, all_below};

// The first `count` numbers are the order; those after them mean nothing, so there is no derived `==`.
// An array with a count, and no Vec: the rule of the project is that an order needs no heap.
#[derive(Clone, Copy)]
pub struct Order {
    pub numbers: [u8; 64],
    pub count: u8,
    ghost some: { 1 ≤ count },
    ghost few: { count ≤ 64 },
    ghost each_once: { different (take count numbers) ≡ true },
    ghost all_there: { all_below count (take count numbers) ≡ true },
}
