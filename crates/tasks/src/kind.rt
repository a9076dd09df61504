// The kinds of the words, each told by the first byte.
ghost use Rattle.std.specs.Prelude.{◌≡◌};
ghost use Rattle.tasks.specs.Kind.{kind_byte, KindOf};

use super::fault::Fault;

#[derive(Clone, Copy, Debug, PartialEq, Eq)]
pub enum Kind {
    Task = 1,
    Plan = 2,
    Boxes = 3,
    Ask = 4,
    Opened = 5,
    End = 6,
}

impl Kind {
    // The byte at the front of a word of this kind.
    pub fn byte(self) -> u8
        ensures { result ≡ kind_byte self }
    {
        self as u8
    }
}

// A byte that is no kind's is fault 1. The table is written out, as the definition is: nothing makes a case of a number.
impl TryFrom<u8> for Kind {
    type Error = Fault;

    ghost try_from_gives = { KindOf };

    fn try_from(byte: u8) -> Result<Kind, Fault> {
        match byte {
            1 => Ok(Kind::Task),
            2 => Ok(Kind::Plan),
            3 => Ok(Kind::Boxes),
            4 => Ok(Kind::Ask),
            5 => Ok(Kind::Opened),
            6 => Ok(Kind::End),
            _ => Err(Fault::Shape),
        }
    }
}
