// The asker's question of a round.
ghost use Rattle.std.specs.Prelude.{◌≡◌, ◌<◌, IfOk, vec_len};
ghost use Rattle.drawing.specs.Uniform.{EvenQuestions, QuestionShares};
ghost use Rattle.tasks.specs.Model.{task_of};
ghost use Rattle.tasks.specs.Reading.{gives};
ghost use Rattle.lots.specs.Lots.{question_in};
ghost use Rattle.lots.specs.Laws.{BytesInTurn, QuestionsInTurn, QuestionsHad, Follows};
ghost use Rattle.lots.specs.Views.{had_of, EndOf};

use super::had::Had;
use super::numbers::draw_number;
use tasks::{Fault, Task};

// The question of a round, the number of a pair, or fault 11 where the bytes are too few. Questions are what the promises of uniformity speak of, round by
// round: each row of them comes from equally many rows of values.
#[tactic(auto, using(crate::proofs::Told::question_laws))]
pub fn draw_question<'a>(task: &Task, bytes: &'a [u8]) -> Result<Had<'a, u16>, Fault>
    ensures question { gives (had_of (λ i. i)) result ≡ question_in (task_of task.now) bytes.now }
    ensures pair { IfOk result (λ h. h.what < vec_len task.now.pairs) }
    ensures left { IfOk result (λ h. EndOf bytes.now h.left.now) }
    ensures in_turn { QuestionsInTurn }
    ensures even { EvenQuestions }
    ensures shares { QuestionShares }
    ensures had { QuestionsHad }
    ensures bytes_in_turn { BytesInTurn }
    ensures follows { Follows (question_in (task_of task.now)) }
{
    let number = draw_number(task.pairs.len() as u32, bytes)?;
    Ok(Had {
        what: number.what as u16,
        left: number.left,
    })
}
