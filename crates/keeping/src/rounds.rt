// The number of rounds of a showing.
ghost use Rattle.std.specs.Prelude.{◌≡◌, ◌^◌, ◌≤◌, IfOk, None};
ghost use Rattle.keeping.specs.Rounds.{RoundsFor};

use command::{Problem, read_rounds};
use tasks::Rounds;

// As many as the text asks for, and the default where there is none.
pub fn rounds_for(text: Option<String>, default: u32) -> Result<Rounds, Problem>
    ensures asked { RoundsFor text default result }
    ensures default { text ≡ None → default ≤ 2 ^ 24 → IfOk result (λ n. n.count ≡ default) }
{
    match text {
        Some(text) => read_rounds(text),
        None => Ok(Rounds::new(default as u64)?),
    }
}
