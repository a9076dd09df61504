// What is told to open a box.
ghost use Rattle.std.specs.Prelude.{◌≡◌};
ghost use Rattle.sha256.specs.Sha256.{sha256};
ghost use Rattle.boxes.specs.Box.{opens_box};
ghost use Rattle.boxes.specs.Model.{opening_of};

use super::closing::close;

#[derive(Clone, Copy, Debug, PartialEq, Eq)]
pub struct Opening {
    pub train: u16,
    pub number: u8,
    pub chance: [u8; 32],
}

// Is the box that of the opening?
#[tactic(auto, using(paths::proofs::Same::pointwise_same))]
pub fn opens(digest: [u8; 32], round: u32, opening: Opening) -> bool
    ensures { result ≡ opens_box sha256 digest round (opening_of opening) }
{
    close(round, opening.train, opening.number, opening.chance) == digest
}
