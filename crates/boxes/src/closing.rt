// The text of a box, and a box closed.
ghost use Rattle.std.specs.Prelude.{◌≡◌, ℕ, List, []};
ghost use Rattle.sha256.specs.Sha256.{sha256};
ghost use Rattle.boxes.specs.Box.{box_text, box_of, OpensOwn};
ghost use Rattle.boxes.specs.Binding.{TextInjective, TextLong};

use sha256::digest;

// Round, train, number and chance one by one: the rule is that a public function of the design, as `close`, takes them by value. (`close_all`, which C calls,
// takes flat slices.)
fn head(round: u32, train: u16, number: u8) -> [u8; 7]
    ensures { result ≡ box_text round train number [] }
{
    let [a, b, c, d] = round.to_be_bytes();
    let [e, f] = train.to_be_bytes();
    [a, b, c, d, e, f, number]
}

pub(super) fn text(round: u32, train: u16, number: u8, chance: &[u8; 32]) -> [u8; 39]
    ensures { result ≡ box_text round train number chance.now }
{
    let mut text = [0; 39];
    text[..7].copy_from_slice(&head(round, train, number));
    text[7..].copy_from_slice(chance);
    text
}

// The box of a train in a round, which holds the number; the chance hides it.
pub fn close(round: u32, train: u16, number: u8, chance: [u8; 32]) -> [u8; 32]
    ensures value { result ≡ box_of sha256 round train number chance }
    ensures injective { TextInjective }
    ensures long { TextLong }
    ensures opened { (hash : List ℕ → List ℕ) → OpensOwn hash }
{
    digest(&text(round, train, number, &chance))
}
