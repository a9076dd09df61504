// The steps of a round.
ghost use Rattle.std.specs.Prelude.{◌≡◌, ◌+◌, ◌*◌, ◌<◌, length, drop, IfOk};
ghost use Rattle.sha256.specs.Sha256.{sha256};
ghost use Rattle.tasks.specs.Fault.{number};
ghost use Rattle.tasks.specs.Model.{task_of, plan_of};
ghost use Rattle.lots.specs.Views.{lot_of};
ghost use Rattle.words.specs.Writing.{said_bytes};
ghost use Rattle.round.specs.Over.{over_of, leads};
ghost use Rattle.round.specs.Round.{boxes_for, opened_for};
ghost use Rattle.planning.specs.Model.{ready_of, closed_of, opened_of, heard_of};
ghost use Rattle.planning.specs.Opens.{AnswersAreDrawn};
ghost use Rattle.planning.specs.Planning.{stops, turn, left_over, close, answer, hear, settle};

use super::closed::Closed;
use super::heard::Heard;
use super::opened::Opened;
use super::ready::Ready;
use book::{RoundWords, next};
use lots::{Lot, draw_lot};
use round::{Outcome, Over, go_on, opened_word, write_boxes};
use tasks::Fault;

impl Ready {
    // The end by a fault in this round. The asker has the same over its own state: a function for both would take as many words to call.
    fn stops(&self, fault: Fault) -> Over
        ensures { over_of result ≡ stops (ready_of self.now) (number fault) }
    {
        Over {
            outcome: Outcome::Fault(fault, self.round),
            digest: self.digest,
        }
    }

    // The Boxes of the round written with this lot, and its chances kept.
    fn put_lot(&mut self, lot: &Lot)
        requires { length lot.now.chances.now ≡ 32 * self.old.task.trains }
        ensures ready { ready_of self.new ≡ ready_of self.old }
        ensures chances { self.new.chances.items ≡ lot.now.chances.now }
        ensures boxes { self.new.boxes.items ≡ said_bytes (boxes_for sha256 self.old.round (plan_of self.old.plan) (lot_of lot.now)) }
    {
        self.chances.copy_from_slice(lot.chances);
        write_boxes(&self.plan, self.round, lot, &mut self.boxes);
    }

    // The boxes of the round closed with a lot from the drawn bytes, or the end by fault 11.
    pub fn close(mut self, drawn: &[u8]) -> Result<Closed, Over>
        ensures state { leads closed_of result ≡ close sha256 (ready_of self) drawn.now }
        ensures used { IfOk result (λ c. drop c.used drawn.now ≡ left_over (task_of self.task) drawn.now) }
    {
        let had = draw_lot(&self.task, drawn).map_err(|fault| self.stops(fault))?;
        self.put_lot(&had.what);
        Ok(Closed {
            ready: self,
            order: had.what.order,
            used: drawn.len() - had.left.len(),
        })
    }

    // The round after this one, or the end after the last one.
    fn next_round(mut self, digest: [u8; 32]) -> Result<Ready, Over>
        ensures { leads ready_of result ≡ turn record { task = task_of self.task; plan = plan_of self.plan; rounds = self.rounds.count; round = self.round + 1; digest = digest } }
    {
        let round = self.round + 1;
        go_on(self.rounds, round, digest)?;
        self.round = round;
        self.digest = digest;
        Ok(self)
    }
}

impl Closed {
    fn open(&self, pair: u16) -> [u8; 75]
        requires { pair < length (task_of self.now.ready.task).pairs }
        ensures { result ≡ said_bytes (opened_for (task_of self.now.ready.task) self.now.ready.round (plan_of self.now.ready.plan) (closed_of self.now).lot pair) }
    {
        let ready = &self.ready;
        let lot = Lot {
            order: self.order,
            chances: &ready.chances,
        };
        opened_word(&ready.task, &ready.plan, ready.round, &lot, pair).unwrap()
    }

    // The boxes of the pair asked for opened, or the end by the fault of the word. They are of the coin that was drawn for the round.
    #[tactic(auto, using(crate::proofs::Opens::answers_drawn))]
    pub fn answer(self, word: &[u8]) -> Result<Opened, Over>
        ensures state { leads opened_of result ≡ answer (closed_of self) word.now }
        ensures coins { AnswersAreDrawn }
    {
        let ready = &self.ready;
        let pair = ready.read_ask(word).map_err(|fault| ready.stops(fault))?;
        let opened = self.open(pair);
        Ok(Opened {
            closed: self,
            ask: word.try_into().unwrap(),
            opened,
        })
    }
}

impl Opened {
    // What the End says, or the end by the fault of the word.
    pub fn hear(self, word: &[u8]) -> Result<Heard, Over>
        ensures { leads heard_of result ≡ hear (opened_of self) word.now }
    {
        let ready = &self.closed.ready;
        let content = ready.read_end(word).map_err(|fault| ready.stops(fault))?;
        Ok(Heard {
            opened: self,
            end: word.try_into().unwrap(),
            content,
        })
    }
}

impl Heard {
    // The words of the round.
    pub fn words(&self) -> RoundWords<'_>
        ensures boxes { result.boxes.now ≡ self.now.opened.closed.ready.boxes.items }
        ensures ask { result.ask.now ≡ self.now.opened.ask }
        ensures opened { result.opened.now ≡ self.now.opened.opened }
        ensures end { result.end.now ≡ self.now.end }
    {
        RoundWords {
            boxes: &self.opened.closed.ready.boxes,
            ask: &self.opened.ask,
            opened: &self.opened.opened,
            end: &self.end,
        }
    }

    // The round closed in the book; and the next one, or the end where that was the last or the asker isn't content.
    pub fn settle(self) -> Result<Ready, Over>
        ensures { leads ready_of result ≡ settle sha256 (heard_of self) }
    {
        let digest = next(self.opened.closed.ready.digest, self.words());
        let ready = self.opened.closed.ready;
        if !self.content {
            return Err(Over {
                outcome: Outcome::NotContent(ready.round),
                digest,
            });
        }
        ready.next_round(digest)
    }
}
