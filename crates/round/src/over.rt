// How a showing ends for a side.
ghost use Rattle.std.specs.Prelude.{◌≡◌, ◌<◌, ◌≤◌, OnOk, IfErr};
ghost use Rattle.round.specs.Over.{over_of, content};

use std::fmt;
use tasks::{Fault, Rounds};

// Content in all of so many rounds; not content in this round; a fault in this round; or a fault of the Task, before any round.
#[derive(Clone, Copy, Debug, PartialEq, Eq)]
pub enum Outcome {
    Content(u32),
    NotContent(u32),
    Fault(Fault, u32),
    TaskFault(Fault),
}

// An outcome, as a line.
impl fmt::Display for Outcome {
    fn fmt<W: fmt::Write>(&self, f: &mut fmt::Formatter<W>) -> fmt::Result {
        match self {
            Outcome::Content(rounds) => write!(f, "content in all {rounds} rounds"),
            Outcome::NotContent(round) => write!(f, "not content in round {round}"),
            Outcome::Fault(fault, round) => write!(f, "{fault}, round {round}"),
            Outcome::TaskFault(fault) => write!(f, "{fault}, before round 0"),
        }
    }
}

// The outcome, and the digest of the book's last closed round. Nothing can be sent from here. A step hands it on as an error, so that `?` and `map_err` end a side
// wherever it stops; a showing that went well ends so too.
#[derive(Clone, Copy, Debug, PartialEq, Eq)]
pub struct Over {
    pub outcome: Outcome,
    pub digest: [u8; 32],
}

// Whether this is one of so many rounds, or else the end after the last.
pub fn go_on(rounds: Rounds, round: u32, digest: [u8; 32]) -> Result<(), Over>
    ensures on { OnOk result (round < rounds.count) }
    ensures last { IfErr result (λ over. (rounds.count ≤ round) × (over_of over ≡ record { outcome = content rounds.count; digest = digest })) }
{
    if round < rounds.count {
        return Ok(());
    }
    Err(Over {
        outcome: Outcome::Content(rounds.count),
        digest,
    })
}
