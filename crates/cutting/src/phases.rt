// Which word of a round is awaited, and what came of the round so far. Words are kept as they came, in the memory that they were read into.
ghost use Rattle.std.specs.Prelude.{◌≡◌};
ghost use Rattle.cutting.specs.Cutting.{between};
ghost use Rattle.cutting.specs.Phases.{awaits_of};

// Boxes and Ask, and the pair that the Ask names.
#[derive(Drop)]
pub struct Asked {
    pub boxes: Vec<u8>,
    pub ask: Vec<u8>,
    pub pair: u16,
}

// In the place of the answer there may be an End with 0; after an End with 0 nothing is awaited.
#[derive(Drop)]
pub enum Awaits {
    Boxes,
    Ask(Vec<u8>),
    Answer(Asked),
    End(Asked, Vec<u8>),
    Nothing,
}

impl Awaits {
    // Whether no word of a round has come: before its Boxes, and after an End with 0.
    pub fn is_between(&self) -> bool
        ensures { result ≡ between (awaits_of self.now) }
    {
        matches!(self, Awaits::Boxes | Awaits::Nothing)
    }
}

// A round that is closed. An End with 1 comes behind an Opened alone; the two stand side by side as in the definition, which cuts words by their form.
#[derive(Drop)]
pub struct Round {
    pub asked: Asked,
    pub opened: Option<Vec<u8>>,
    pub end: Vec<u8>,
    pub content: bool,
}

// What a word leads to. A round that is closed is no failure, so this is no Result; and no ControlFlow, since neither case is the end.
#[derive(Drop)]
pub enum Heard {
    Waits(Awaits),
    Closes(Round),
}

// The word in the answer's place.
#[derive(Clone, Copy, Debug, PartialEq, Eq)]
pub(crate) enum Answer {
    Opened,
    NotContent,
}
