// The faults: why a file, a word or a showing is refused. Each has a number, except the want of memory.
ghost use Rattle.std.specs.Prelude.{◌≡◌, Some};
ghost use Rattle.tasks.specs.declared.fault.Fault.TheVariants.{Memory};
ghost use Rattle.tasks.specs.Fault.{number, cause, fault_text};

use std::alloc::{AllocError, AllocFailed};
use std::fmt;

// The first pair that a plan fails: its number, and its two trains, which have one path.
#[derive(Clone, Copy, Debug, PartialEq, Eq)]
pub struct Unfit {
    pub pair: u16,
    pub first: u16,
    pub second: u16,
}

#[derive(Clone, Copy, Debug, PartialEq, Eq)]
pub enum Fault {
    Shape,
    Range,
    Order,
    OtherTask,
    Unfit(Unfit),
    NotAwaited,
    NoPair,
    OtherTrains,
    NotOpened,
    BadNumber,
    DrawnOut,
    TooManyRounds,
    OtherWords,
    Memory,
}

impl Fault {
    // The number by which a fault is told; 0 for the want of memory, which has none: no Option, since the definition gives each fault a number.
    pub fn number(&self) -> u8
        ensures { result ≡ number self.now }
    {
        match self {
            Fault::Shape => 1,
            Fault::Range => 2,
            Fault::Order => 3,
            Fault::OtherTask => 4,
            Fault::Unfit(_) => 5,
            Fault::NotAwaited => 6,
            Fault::NoPair => 7,
            Fault::OtherTrains => 8,
            Fault::NotOpened => 9,
            Fault::BadNumber => 10,
            Fault::DrawnOut => 11,
            Fault::TooManyRounds => 12,
            Fault::OtherWords => 13,
            Fault::Memory => 0,
        }
    }

    fn cause(&self) -> &'static str
        ensures { result.now ≡ cause self.now }
    {
        match self {
            Fault::Shape => "unknown kind or bad length",
            Fault::Range => "a number out of its range, or a train or path that isn't there",
            Fault::Order => "pairs not in rising order, or of a train with itself",
            Fault::OtherTask => "the tasks differ",
            Fault::Unfit(_) => "the plan doesn't fit",
            Fault::NotAwaited => "a word of another round, or not awaited",
            Fault::NoPair => "a pair that isn't there",
            Fault::OtherTrains => "an opening of other trains",
            Fault::NotOpened => "a box that the opening doesn't open",
            Fault::BadNumber => "a number that is no path's, or the same twice",
            Fault::DrawnOut => "the drawn bytes are used up",
            Fault::TooManyRounds => "more than 16777216 rounds",
            Fault::OtherWords => "words that don't fit the book",
            Fault::Memory => "out of memory",
        }
    }
}

// What a person is told, by hand, since `thiserror` would say the numbers a second time. The trains of an unfit pair are left out, as only the planner may know
// them.
impl fmt::Display for Fault {
    ghost output = { λ f. Some (fault_text f) };

    fn fmt<W: fmt::Write>(&self, f: &mut fmt::Formatter<W>) -> fmt::Result {
        let number = self.number();
        let cause = self.cause();
        write!(f, "fault {number}: {cause}")
    }
}

// This one and the next stand by hand, since `from_gives` says which fault it is.
impl From<AllocError> for Fault {
    ghost from_gives = { λ _ f. f ≡ Memory };

    fn from(_error: AllocError) -> Fault {
        Fault::Memory
    }
}

impl<T: Drop> From<AllocFailed<T>> for Fault {
    ghost from_gives = { λ _ f. f ≡ Memory };

    fn from(_refused: AllocFailed<T>) -> Fault {
        Fault::Memory
    }
}
