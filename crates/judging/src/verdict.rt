// What the judge tells.
use tasks::Fault;

// Whether the asker was content: in all rounds; not in this round, and what the test of its opening gives; or in this round, but the opening has this fault.
#[derive(Clone, Copy, Debug, PartialEq, Eq)]
pub enum Content {
    All,
    Not(u32, Result<(), Fault>),
    But(u32, Fault),
}

// Whether the plan and the drawn bytes give the words: they were not handed over; they do; they are used up in this round; or in this round it is another
// for this train.
#[derive(Clone, Copy, Debug, PartialEq, Eq)]
pub enum Redrawn {
    NotHanded,
    Agrees,
    DrawnOut(u32),
    Differs(u32, u16),
}

// Words that can't be cut into rounds, with the fault and its round; words that don't fit the digest, of which no more is told; or what they say, and how
// many rounds they are.
#[derive(Clone, Copy, Debug, PartialEq, Eq)]
pub enum Verdict {
    BadWords(Fault, u32),
    OtherWords,
    Judged(u32, Content, Redrawn),
}
