// The judge's steps.
ghost use Rattle.std.specs.Prelude.{◌≡◌, ◌^◌, ◌<◌, true, IfOk};
ghost use Rattle.sha256.specs.Sha256.{sha256};
ghost use Rattle.tasks.specs.Model.{task_of};
ghost use Rattle.tasks.specs.Reading.{Meets, looks};
ghost use Rattle.judging.specs.Verdict.{content_of, redrawn_of, verdict_of, first_of, first_drawn};
ghost use Rattle.judging.specs.Judging.{content_in, redrawn_in, nothing_yet};
ghost use Rattle.cutting.specs.Cutting.{behind};
ghost use Rattle.cutting.specs.Phases.{round_of, awaits_of};
ghost use Rattle.judging.specs.Plans.{plan_in, fits_if_any};
ghost use Rattle.judging.specs.Steps.{begin, tested_if_any, start, closing, step, finish};
ghost use Rattle.judging.specs.Model.{judge_of, goes};
ghost use Rattle.judging.specs.Laws.{Folds, FrontServes, BookFirst};
ghost use Rattle.judging.specs.Honest.{HonestPasses};
ghost use Rattle.judging.specs.Contents.{TellsContent};
ghost use Rattle.judging.specs.Redrawing.{TellsDifference};
ghost use Rattle.judging.specs.Finding.{FirstCounts};
ghost use Rattle.judging.specs.Binding.{WordsBind, NoOtherWords};

use super::judge::Judge;
use super::looking::{Closed, words_of};
use super::verdict::{Content, Redrawn, Verdict};
use book::next;
use cutting::{Awaits, Heard, Round, hear};
use fitting::test_plan;
use std::alloc::{AllocError, Global};
use std::mem;
use tasks::{Fault, Plan, Task, write_task};

fn test_if_any(task: &Task, plan: &Option<Plan>) -> Result<(), Fault>
    ensures { looks result ≡ tested_if_any (task_of task.now) (plan_in plan.now) }
{
    plan.as_ref().map_or(Ok(()), |plan| test_plan(task, plan))
}

fn nothing_yet(plan: &Option<Plan>) -> Redrawn
    ensures { redrawn_of result ≡ nothing_yet (plan_in plan.now) }
{
    match plan {
        Some(_) => Redrawn::Agrees,
        None => Redrawn::NotHanded,
    }
}

// The judge before the first word.
fn begin(heap: Global, task: Task, plan: Option<Plan>) -> Result<Judge, AllocError>
    requires { fits_if_any (task_of task) (plan_in plan) ≡ true }
    ensures { IfOk result (λ s. judge_of s ≡ begin sha256 (task_of task) (plan_in plan)) }
{
    let word = write_task(heap, &task)?;
    let memory = Vec::from_elem(heap, 0, 7 + 32 * task.trains as usize)?;
    let digest = book::start(&word);
    let redrawn = nothing_yet(&plan);
    Ok(Judge {
        task,
        plan,
        round: 0,
        digest,
        content: Content::All,
        redrawn,
        awaits: Awaits::Boxes,
        memory,
    })
}

fn behind(round: &Round) -> Awaits
    ensures { awaits_of result ≡ behind (round_of round.now) }
{
    if round.content {
        Awaits::Boxes
    } else {
        Awaits::Nothing
    }
}

impl Judge {
    // What is found of the asker's content when this round is closed.
    fn content_with(&self, round: &Round) -> Content
        ensures { content_of result ≡ first_of (content_of self.now.content) (content_in sha256 (task_of self.now.task) self.now.round (round_of round.now)) }
    {
        let closed = Closed {
            task: &self.task,
            number: self.round,
            round,
        };
        match self.content {
            Content::All => closed.content(),
            found => found,
        }
    }

    // What is found of the plan and the drawn bytes when this round is closed.
    fn redrawn_with(&mut self, drawn: &[u8], round: &Round) -> Redrawn
        ensures found { redrawn_of result ≡ first_drawn (redrawn_of self.old.redrawn) (redrawn_in sha256 (task_of self.old.task) (plan_in self.old.plan) self.old.round (round_of round.now) drawn.now) }
        ensures judge { judge_of self.new ≡ judge_of self.old }
    {
        match self.redrawn {
            Redrawn::NotHanded | Redrawn::Agrees => self.redraw(drawn, round),
            found => found,
        }
    }

    // The round closed: added to the book, looked at, and drawn again.
    fn close(mut self, drawn: &[u8], closed: &Round) -> Judge
        requires { self.round < 2 ^ 24 }
        ensures { judge_of result ≡ closing sha256 (judge_of self) drawn.now (round_of closed.now) }
    {
        self.content = self.content_with(closed);
        self.redrawn = self.redrawn_with(drawn, closed);
        self.digest = next(self.digest, words_of(closed));
        self.awaits = behind(closed);
        self.round += 1;
        self
    }

    // The judge of a showing of this task, with the plan, if it is handed over; or the fault of the plan.
    pub fn start(heap: Global, task: Task, plan: Option<Plan>) -> Result<Judge, Fault>
        ensures { Meets judge_of result (start sha256 (task_of task) (plan_in plan)) }
    {
        test_if_any(&task, &plan)?;
        Ok(begin(heap, task, plan)?)
    }

    // The next word, with the drawn bytes for its round, if they are handed over: those of the rounds before it left out. Or the verdict, where the words can't be
    // cut into rounds.
    pub fn take(mut self, word: Vec<u8>, drawn: &[u8]) -> Result<Judge, Verdict>
        ensures { goes result ≡ step sha256 (judge_of self) word.items drawn.now }
    {
        let awaits = mem::replace(&mut self.awaits, Awaits::Nothing);
        match hear(&self.task, self.round, awaits, word) {
            Ok(Heard::Waits(awaits)) => {
                self.awaits = awaits;
                Ok(self)
            }
            Ok(Heard::Closes(closed)) => Ok(self.close(drawn, &closed)),
            Err(fault) => Err(Verdict::BadWords(fault, self.round)),
        }
    }

    // Told apart from `end`, whose nine laws would have to be shown at each of these three answers: of laws that `using` names there, the check finds only some.
    fn tell(&self, digest: [u8; 32]) -> Verdict
        ensures { verdict_of result ≡ finish (judge_of self.now) digest }
    {
        if !self.awaits.is_between() {
            return Verdict::BadWords(Fault::Shape, self.round);
        }
        if self.digest != digest {
            return Verdict::OtherWords;
        }
        Verdict::Judged(self.round, self.content, self.redrawn)
    }

    // The verdict after the last word, by the digest that was signed. In one pass the words are told what is to be told of them, of findings the first, and nothing
    // where they don't fit the digest; an honest planner passes, and no other words fit its last digest, unless two texts of one digest are at hand.
    pub fn end(self, digest: [u8; 32]) -> Verdict
        ensures verdict { verdict_of result ≡ finish (judge_of self) digest }
        ensures folds { Folds sha256 }
        ensures serves { FrontServes sha256 }
        ensures book_first { BookFirst sha256 }
        ensures content { TellsContent sha256 }
        ensures differs { TellsDifference sha256 }
        ensures first { FirstCounts sha256 }
        ensures honest { HonestPasses sha256 }
        ensures bind { WordsBind sha256 }
        ensures no_other { NoOtherWords sha256 }
    {
        self.tell(digest)
    }
}
