// Two openings of one box.
ghost use Rattle.std.specs.Prelude.{◌≡◌, ℕ, true, List, IfSome};
ghost use Rattle.std.specs.Option.{option_map};
ghost use Rattle.sha256.specs.Sha256.{sha256};
ghost use Rattle.boxes.specs.Binding.{collides, opened_twice, collision_of, Binds};
ghost use Rattle.boxes.specs.Model.{opening_of, two_of};

use super::closing::text;
use super::opening::{Opening, opens};

// A struct of its own, as two paths and two trains have: a `Two<[u8; 39]>` would not say of what.
#[derive(Clone, Copy, Debug, PartialEq, Eq)]
pub struct TwoTexts {
    pub first: [u8; 39],
    pub second: [u8; 39],
}

fn opened_twice(digest: [u8; 32], round: u32, first: Opening, second: Opening) -> bool
    ensures { result ≡ opened_twice sha256 digest round (opening_of first) (opening_of second) }
{
    first != second && opens(digest, round, first) && opens(digest, round, second)
}

// The texts of two openings of one box: different, and of one digest. None where the openings are the same, or one of them doesn't open the box.
#[tactic(auto, using(crate::proofs::Binds::binds))]
pub fn collision(digest: [u8; 32], round: u32, first: Opening, second: Opening) -> Option<TwoTexts>
    ensures texts { option_map two_of result ≡ collision_of sha256 digest round (opening_of first) (opening_of second) }
    ensures collides { IfSome result (λ x. collides sha256 (two_of x) ≡ true) }
    ensures binds { (hash : List ℕ → List ℕ) → Binds hash }
{
    if !opened_twice(digest, round, first, second) {
        return None;
    }
    Some(TwoTexts {
        first: text(round, first.train, first.number, &first.chance),
        second: text(round, second.train, second.number, &second.chance),
    })
}
