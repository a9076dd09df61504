// The number of rounds of a showing.
ghost use Rattle.std.specs.Prelude.{◌≡◌, ◌^◌, ◌≤◌};
ghost use Rattle.tasks.specs.Reading.{gives};
ghost use Rattle.tasks.specs.Rounds.{asked_rounds};

use super::fault::Fault;

pub const MOST_ROUNDS: u32 = 16777216;

// At most 2^24, and 0 is allowed.
#[derive(Clone, Copy, Debug, PartialEq, Eq)]
pub struct Rounds {
    pub count: u32,
    ghost few: { count ≤ 2 ^ 24 },
}

impl Rounds {
    // So many rounds, or fault 12 where they are too many. No TryFrom beside it, which would say the same.
    pub fn new(count: u64) -> Result<Rounds, Fault>
        ensures { gives (λ (n : Rounds). n.count) result ≡ asked_rounds count }
    {
        if count > u64::from(MOST_ROUNDS) {
            return Err(Fault::TooManyRounds);
        }
        Ok(Rounds {
            count: count as u32,
        })
    }
}
