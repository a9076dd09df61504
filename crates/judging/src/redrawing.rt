// A round drawn again with the plan, and compared.
ghost use Rattle.std.specs.Prelude.{◌≡◌, ◌+◌, ◌*◌, length, take, drop};
ghost use Rattle.sha256.specs.Sha256.{sha256};
ghost use Rattle.paths.specs.Order.{order_of};
ghost use Rattle.tasks.specs.Model.{task_of, plan_of};
ghost use Rattle.boxes.specs.Box.{boxes_of};
ghost use Rattle.round.specs.Round.{held};
ghost use Rattle.lots.specs.Views.{lot_of};
ghost use Rattle.judging.specs.Verdict.{redrawn_of};
ghost use Rattle.judging.specs.Judging.{first_from, other_box, other_opening, other_answer, other_train, redrawn_in};
ghost use Rattle.judging.specs.Model.{judge_of};
ghost use Rattle.cutting.specs.Phases.{round_of};
ghost use Rattle.judging.specs.Plans.{plan_in};

use super::given::Given;
use super::judge::Judge;
use super::looking::{Closed, opened_in};
use super::verdict::Redrawn;
use cutting::Round;
use fitting::pair_at;
use lots::{Had, draw_lot};
use round::{opened_word, write_boxes};
use tasks::Pair;
use words::behind_head;

// So many bytes from a place on, or those that are there: what was said is compared also where it is cut short, which `part_of` of `round` doesn't give.
fn part(bytes: &[u8], at: usize, size: usize) -> &[u8]
    ensures { result.now ≡ take size (drop at bytes.now) }
{
    let rest = bytes.get(at..).unwrap_or_default();
    rest.get(..size).unwrap_or(rest)
}

fn other_box(digests: &[u8], given: &[u8], train: u16) -> bool
    ensures { result ≡ other_box digests.now given.now train }
{
    let at = 32 * train as usize;
    part(digests, at, 32) != part(given, at, 32)
}

// The first of so many trains whose box is another. By number, since boxes that are missing are others too.
fn first_other(trains: u16, digests: &[u8], given: &[u8]) -> Option<u16>
    ensures { result ≡ first_from (other_box digests.now given.now) 0 trains }
{
    (0..trains).find(|train| other_box(digests, given, *train))
}

// By place, since the definition compares the bytes of each opening: whether the word is a good Opened is no matter here.
#[tactic(auto, using(paths::proofs::Same::pointwise_same))]
fn other_opening(pair: Pair, word: &[u8], given: &[u8]) -> Option<u16>
    ensures { result ≡ other_opening pair.first pair.second word.now given.now }
{
    if part(word, 5, 35) != part(given, 5, 35) {
        return Some(pair.first);
    }
    if part(word, 40, 35) != part(given, 40, 35) {
        return Some(pair.second);
    }
    None
}

impl Given<'_> {
    fn other_answer(&self) -> Option<u16>
        ensures { result ≡ other_answer (task_of self.now.closed.task.now) self.now.closed.number (plan_of self.now.plan.now) (lot_of self.now.lot) (round_of self.now.closed.round.now) }
    {
        let Closed {
            task,
            number,
            round,
        } = self.closed;
        let opened = opened_in(round);
        if opened.len() != 75 {
            return None;
        }
        let Ok(pair) = pair_at(task, round.asked.pair) else {
            // an Ask for no pair is told as train 0, as the definition says
            return Some(0);
        };
        let given = opened_word(task, self.plan, number, &self.lot, round.asked.pair);
        other_opening(pair, opened, &given.unwrap())
    }

    // Fills the memory with the Boxes. That there is room for them is an invariant of the judge, of whom these two have the memory alone.
    fn put_boxes(&self, memory: &mut [u8])
        requires { length memory.old ≡ 7 + 32 * self.now.closed.task.now.trains }
        ensures { drop 7 memory.new ≡ boxes_of sha256 self.now.closed.number 0 (held (plan_of self.now.plan.now) (order_of self.now.lot.order)) self.now.lot.chances.now }
    {
        write_boxes(self.plan, self.closed.number, &self.lot, memory);
    }

    // The first train with another box, or else another opening. By `or`, though both are worked out then: what a closure gives that holds `self` isn't known
    // behind `or_else`.
    fn other_train(&self, memory: &mut [u8]) -> Option<u16>
        requires { length memory.old ≡ 7 + 32 * self.now.closed.task.now.trains }
        ensures { result ≡ other_train sha256 (task_of self.now.closed.task.now) self.now.closed.number (plan_of self.now.plan.now) (lot_of self.now.lot) (round_of self.now.closed.round.now) }
    {
        self.put_boxes(memory);
        let digests = behind_head(&self.closed.round.asked.boxes);
        first_other(self.closed.task.trains, digests, behind_head(memory)).or(self.other_answer())
    }
}

impl Judge {
    // What the plan and the drawn bytes say of a closed round.
    pub(super) fn redraw(&mut self, drawn: &[u8], round: &Round) -> Redrawn
        ensures found { redrawn_of result ≡ redrawn_in sha256 (task_of self.old.task) (plan_in self.old.plan) self.old.round (round_of round.now) drawn.now }
        ensures judge { judge_of self.new ≡ judge_of self.old }
    {
        let number = self.round;
        let Some(plan) = &self.plan else {
            return Redrawn::NotHanded;
        };
        let Ok(Had { what: lot, .. }) = draw_lot(&self.task, drawn) else {
            return Redrawn::DrawnOut(number);
        };
        let closed = Closed {
            task: &self.task,
            number,
            round,
        };
        let given = Given { closed, plan, lot };
        given
            .other_train(&mut self.memory)
            .map_or(Redrawn::Agrees, |train| Redrawn::Differs(number, train))
    }
}
