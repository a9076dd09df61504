// Paths and their partners, and the order in which each path has its partner's number.
ghost use Rattle.std.specs.Prelude.{◌≡◌, ◌<◌, ◌≤◌, length, take};
ghost use Rattle.std.specs.Option.{option_map};
ghost use Rattle.paths.specs.Order.{order_of};
ghost use Rattle.paths.specs.Pairing.{rank, nth};
ghost use Rattle.paths.specs.Partners.{are_two, partner_of, paired_by, paired};

use super::order::Order;

// A struct of its own, as the pairs of other things in other crates: a `Two<u8>` would not say of what.
#[derive(Clone, Copy, Debug, PartialEq, Eq)]
pub struct TwoPaths {
    pub first: u8,
    pub second: u8,
}

// The partner of path `from.first` is `to.first`, that of `from.second` is `to.second`; the other paths have the other paths as partners, in rising
// order.
#[derive(Clone, Copy, Debug, PartialEq, Eq)]
pub struct Partners {
    pub from: TwoPaths,
    pub to: TwoPaths,
}

impl TwoPaths {
    // Are these two different paths, of so many?
    fn are_two(self, count: u8) -> bool
        ensures { result ≡ are_two count self }
    {
        self.first < count && self.second < count && self.first != self.second
    }

    // How many paths other than these two are below a path.
    fn rank(self, path: u8) -> u8
        ensures { result ≡ rank self.first self.second path }
    {
        path.saturating_sub(u8::from(self.first < path))
            .saturating_sub(u8::from(self.second < path))
    }

    // The path other than these two with so many such paths below it.
    fn nth(self, rank: u8) -> u8
        requires { rank < 64 }
        ensures { result ≡ nth self.first self.second rank }
    {
        if rank < self.first.min(self.second) {
            rank
        } else if rank + 1 < self.first.max(self.second) {
            rank + 1
        } else {
            rank + 2
        }
    }
}

impl Partners {
    fn partner_of(self, path: u8) -> u8
        requires { path < 64 }
        ensures { result ≡ partner_of self path }
    {
        if path == self.from.first {
            self.to.first
        } else if path == self.from.second {
            self.to.second
        } else {
            self.to.nth(self.from.rank(path))
        }
    }
}

impl Order {
    // The order in which each path has the number that its partner has here, if the partners are paths of this order and the two differ.
    pub fn paired(&self, partners: Partners) -> Option<Order>
        ensures { option_map order_of result ≡ paired partners (order_of self.now) }
    {
        if !partners.from.are_two(self.count) || !partners.to.are_two(self.count) {
            return None;
        }
        Some(Order {
            numbers: partners_numbers(self.as_slice(), partners),
            count: self.count,
        })
    }
}

// The numbers of the partners of paths 0, 1, ..
fn put_numbers(theirs: &mut [u8], numbers: &[u8], partners: Partners)
    requires few { length numbers.now ≤ 64 }
    requires room { length theirs.old ≡ length numbers.now }
    ensures { theirs.new ≡ paired_by partners numbers.now }
{
    for (path, number) in theirs.iter_mut().enumerate() {
        let partner = partners.partner_of(path as u8);
        *number = numbers.get(partner as usize).copied().unwrap_or(0);
    }
}

// The same at the front of an array. A turn for each path that is there, and no `array::from_fn`: its 64 turns were most of what a round took.
fn partners_numbers(numbers: &[u8], partners: Partners) -> [u8; 64]
    requires { length numbers.now ≤ 64 }
    ensures { take (length numbers.now) result ≡ paired_by partners numbers.now }
{
    let mut theirs = [0; 64];
    put_numbers(&mut theirs[..numbers.len()], numbers, partners);
    theirs
}
