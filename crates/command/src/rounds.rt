// The number of rounds, as it is asked for on the command line.
ghost use Rattle.std.specs.Prelude.{◌≡◌};
ghost use Rattle.std.specs.Option.{option_map};
ghost use Rattle.tasks.specs.Rounds.{asked_rounds};
ghost use Rattle.command.specs.Rounds.{asked, more, Heard};

use super::problem::Problem;
use arguments::Wrong;
use tasks::{MOST_ROUNDS, Rounds};

// A digit more. A number above 2^24 is too large whatever follows, and stays.
fn with_digit(count: u64, digit: u8) -> Option<u64>
    ensures { result ≡ more count digit }
{
    if !digit.is_ascii_digit() {
        return None;
    }
    if count > MOST_ROUNDS as u64 {
        return Some(count);
    }
    Some(count * 10 + (digit - b'0') as u64)
}

// By digits, and not by `parse`, which takes a sign and refuses a number of many digits. In a loop, since the check doesn't find the proof by what `try_fold` promises.
fn number(text: &[u8]) -> Option<u64>
    ensures { option_map asked_rounds result ≡ asked text.now }
{
    if text.is_empty() {
        return None;
    }
    let mut count = 0;
    for digit in text {
        count = with_digit(count, *digit)?;
    }
    Some(count)
}

// So many rounds, or fault 12 where they are too many; a text that is no number is a wrong argument.
pub fn read_rounds(text: String) -> Result<Rounds, Problem>
    ensures { Heard text result }
{
    let count = number(text.as_bytes()).ok_or(Problem::Argument(Wrong::Word(text)))?;
    Rounds::new(count).map_err(Problem::Fault)
}
