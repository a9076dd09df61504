// Whether the asker was content with a round, its opening looked at again.
ghost use Rattle.std.specs.Prelude.{◌≡◌, vec_items};
ghost use Rattle.sha256.specs.Sha256.{sha256};
ghost use Rattle.tasks.specs.Model.{task_of};
ghost use Rattle.tasks.specs.Reading.{looks};
ghost use Rattle.judging.specs.Verdict.{content_of};
ghost use Rattle.judging.specs.Judging.{look, content_in};
ghost use Rattle.book.specs.Model.{text_of};
ghost use Rattle.cutting.specs.Cutting.{text_of as round_text};
ghost use Rattle.cutting.specs.Phases.{round_of, counted};

use super::verdict::Content;
use book::RoundWords;
use cutting::Round;
use fitting::pair_at;
use round::test_opened;
use tasks::{Fault, Task};
use words::{behind_head, read_word};

// The bytes of the Opened, and none where there is none.
pub(super) fn opened_in(round: &Round) -> &[u8]
    ensures { result.now ≡ counted vec_items round.now.opened }
{
    round.opened.as_deref().unwrap_or_default()
}

pub(super) fn words_of(round: &Round) -> RoundWords<'_>
    ensures { text_of result ≡ round_text (round_of round.now) }
{
    RoundWords {
        boxes: &round.asked.boxes,
        ask: &round.asked.ask,
        opened: opened_in(round),
        end: &round.end,
    }
}

// A round that is closed, with its number, in a showing of the task.
#[derive(Clone, Copy)]
pub(super) struct Closed<'a> {
    pub(super) task: &'a Task,
    pub(super) number: u32,
    pub(super) round: &'a Round,
}

impl Closed<'_> {
    // The opening of the round tested again.
    fn look(&self) -> Result<(), Fault>
        ensures { looks result ≡ look sha256 (task_of self.now.task.now) self.now.number (round_of self.now.round.now) }
    {
        let asked = &self.round.asked;
        pair_at(self.task, asked.pair)?;
        let word = read_word(self.task, opened_in(self.round))?;
        test_opened(
            self.task,
            self.number,
            asked.pair,
            behind_head(&asked.boxes),
            word,
        )
    }

    pub(super) fn content(&self) -> Content
        ensures { content_of result ≡ content_in sha256 (task_of self.now.task.now) self.now.number (round_of self.now.round.now) }
    {
        let looked = self.look();
        if !self.round.content {
            return Content::Not(self.number, looked);
        }
        match looked {
            Ok(()) => Content::All,
            Err(fault) => Content::But(self.number, fault),
        }
    }
}
