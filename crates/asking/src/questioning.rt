// The question of a round: drawn before the Boxes are read, and asked when they came.
ghost use Rattle.std.specs.Prelude.{◌≡◌};
ghost use Rattle.tasks.specs.Model.{task_of};
ghost use Rattle.tasks.specs.Reading.{looks, and_then};
ghost use Rattle.words.specs.Reading.{read_word};
ghost use Rattle.words.specs.Awaited.{on_boxes};
ghost use Rattle.round.specs.Over.{leads};
ghost use Rattle.asking.specs.Asking.{draw, question};
ghost use Rattle.asking.specs.Model.{ready_of, drawn_of, asked_of};

use super::asked::Asked;
use super::drawn::Drawn;
use super::ready::Ready;
use lots::draw_question;
use round::Over;
use tasks::Fault;
use words::{ask_bytes, read_word};

impl Ready {
    // The question of this round, from the bytes that are drawn.
    pub fn draw(self, bytes: &[u8]) -> Result<Drawn, Over>
        ensures { leads drawn_of result ≡ draw (ready_of self) bytes.now }
    {
        let question = draw_question(&self.task, bytes).map_err(|fault| self.stops(fault))?;
        Ok(Drawn {
            ready: self,
            pair: question.what,
        })
    }

    fn test_boxes(&self, word: &[u8]) -> Result<(), Fault>
        ensures { looks result ≡ and_then (read_word (task_of self.now.task) word.now) (on_boxes self.now.round) }
    {
        read_word(&self.task, word)?.boxes_of(self.round)
    }
}

impl Drawn {
    // The Boxes of this round, to be answered by the question.
    pub fn question(self, word: Vec<u8>) -> Result<Asked, Over>
        ensures { leads asked_of result ≡ question (drawn_of self) word.items }
    {
        let ready = &self.ready;
        ready.test_boxes(&word).map_err(|fault| ready.stops(fault))?;
        let ask = ask_bytes(ready.round, self.pair);
        Ok(Asked {
            drawn: self,
            boxes: word,
            ask,
        })
    }
}
