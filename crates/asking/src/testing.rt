// The answer to the question, tested, and the round closed.
ghost use Rattle.std.specs.Prelude.{◌≡◌, [], drop, if◌then◌else◌};
ghost use Rattle.sha256.specs.Sha256.{sha256};
ghost use Rattle.tasks.specs.Model.{task_of};
ghost use Rattle.tasks.specs.Reading.{gives, looks, and_then};
ghost use Rattle.words.specs.Model.{said};
ghost use Rattle.words.specs.Reading.{read_word};
ghost use Rattle.round.specs.Over.{leads};
ghost use Rattle.round.specs.Round.{test_opened};
ghost use Rattle.asking.specs.Asking.{is_opened_of, test, settle};
ghost use Rattle.round.specs.Contents.{Exact};
ghost use Rattle.asking.specs.Model.{ready_of, asked_of, tested_of, counted};

use super::asked::Asked;
use super::drawn::Drawn;
use super::ready::Ready;
use super::tested::Tested;
use super::turning::turn;
use book::{RoundWords, next};
use round::{Outcome, Over, test_opened};
use tasks::Fault;
use words::{Word, behind_head, end_bytes, read_word};

impl Ready {
    fn is_opened(&self, read: Result<Word, Fault>) -> bool
        ensures { result ≡ is_opened_of self.now.round (gives said read.entry) }
    {
        matches!(read, Ok(Word::Opened(said, _, _)) if said == self.round)
    }

    // The bytes of an Opened of this round, whether it is good or not, where this was read of them.
    fn opened_in(&self, read: Result<Word, Fault>, word: &[u8]) -> Option<[u8; 75]>
        requires { gives said read ≡ read_word (task_of self.now.task) word.now }
        ensures { counted result ≡ (if is_opened_of self.now.round (read_word (task_of self.now.task) word.now) then word.now else []) }
    {
        if !self.is_opened(read) {
            return None;
        }
        word.try_into().ok()
    }
}

impl Asked {
    fn test_answer(&self, read: Result<Word, Fault>) -> Result<(), Fault>
        ensures { looks result ≡ and_then (gives said read.entry) (test_opened sha256 (task_of self.now.drawn.ready.task) self.now.drawn.ready.round self.now.drawn.pair (drop 7 self.now.boxes.items)) }
    {
        let Drawn { ready, pair } = &self.drawn;
        let word = read?;
        test_opened(
            &ready.task,
            ready.round,
            *pair,
            behind_head(&self.boxes),
            word,
        )
    }

    // Whatever came in answer, no bytes where the input ended, there is an End to send.
    pub fn test(self, word: &[u8]) -> Tested
        ensures state { tested_of result ≡ test sha256 (asked_of self) word.now }
        ensures exact { Exact sha256 (task_of self.drawn.ready.task) }
    {
        let ready = &self.drawn.ready;
        let read = read_word(&ready.task, word);
        let test = self.test_answer(read);
        let opened = ready.opened_in(read, word);
        let end = end_bytes(ready.round, test.is_ok());
        Tested {
            asked: self,
            opened,
            end,
            test,
        }
    }
}

impl Tested {
    // The words of the round.
    pub fn words(&self) -> RoundWords<'_>
        ensures boxes { result.boxes.now ≡ self.now.asked.boxes.items }
        ensures ask { result.ask.now ≡ self.now.asked.ask }
        ensures opened { result.opened.now ≡ counted self.now.opened }
        ensures end { result.end.now ≡ self.now.end }
    {
        RoundWords {
            boxes: &self.asked.boxes,
            ask: &self.asked.ask,
            opened: self.opened.as_ref().map_or(&[][..], |bytes| &bytes[..]),
            end: &self.end,
        }
    }

    // The round is closed in the book: the next one, or the end after the last one or after a refused answer.
    pub fn settle(self) -> Result<Ready, Over>
        ensures { leads ready_of result ≡ settle sha256 (tested_of self) }
    {
        let digest = next(self.asked.drawn.ready.digest, self.words());
        let asked = self.asked;
        let ready = asked.drawn.ready;
        self.test.map_err(|fault| Over {
            outcome: Outcome::Fault(fault, ready.round),
            digest,
        })?;
        turn(ready.task, ready.rounds, ready.round + 1, digest)
    }
}
