// Drawn bytes, read as the rounds need them.
ghost use Rattle.std.specs.Prelude.{◌≡◌, ℕ, ◌+◌, IfOk, IfErr, MatchResult, Option, None, [], drop, vec_len};
ghost use Rattle.std.specs.Fn.{FnReturnsAt};
ghost use Rattle.std.specs.Io.{StartsWith};
ghost use Rattle.tasks.specs.Model.{task_of};
ghost use Rattle.lots.specs.Lots.{lot_in, question_in};
ghost use Rattle.lots.specs.Views.{EndOf};
ghost use Rattle.command.specs.Files.{Unread};
ghost use Rattle.keeping.specs.Drawn.{held, took, left_of, GoesOn, Takes, or_none, OneRow};

use command::{Input, Problem};
use lots::{Had, draw_lot, draw_question};
use tasks::{Fault, Task};

// What was read and not let go yet, and how much of it the last round took. The input is buffered, but its buffer has one size, and a round's bytes have to lie
// side by side.
#[derive(Drop)]
pub struct Drawn {
    input: Input,
    bytes: Vec<u8>,
    taken: usize,
}

// How many of these bytes what was drawn from them takes; nothing where they are too few.
fn taken_by<T: Drop>(drawn: Result<Had<'_, T>, Fault>, bytes: &[u8]) -> Option<usize>
    ensures { MatchResult drawn.entry (λ h. EndOf bytes.now h.left.now → drop (or_none result) bytes.now ≡ h.left.now) (λ _. result ≡ None) }
{
    let had = drawn.ok()?;
    Some(bytes.len().saturating_sub(had.left.len()))
}

impl Drawn {
    pub fn open(rt: &HostRuntime, name: String) -> Result<Drawn, Problem>
        ensures held { IfOk result (λ d. held d ≡ []) }
        ensures took { IfOk result (λ d. took d ≡ 0) }
        ensures name { IfOk result (λ d. d.input.name ≡ name) }
        ensures unread { IfErr result (Unread name) }
    {
        Ok(Drawn {
            input: Input::open(rt, name)?,
            bytes: Vec::new(rt.alloc()),
            taken: 0,
        })
    }

    // Holds enough for the planner's lot of the next round, or all that is left.
    pub fn lot(&mut self, task: &Task) -> Result<(), Problem>
        ensures goes_on { GoesOn self.old self.new }
        ensures takes { MatchResult result (λ _. Takes (lot_in (task_of task.now)) self.new) (λ _. took self.new ≡ 0) }
        ensures row { OneRow (lot_in (task_of task.now)) }
    {
        // Four for each number of the order, and a chance for each train. No more than a first guess: where values are passed over, a lot takes more.
        let least = 4 * (task.paths as usize - 1) + 32 * task.trains as usize;
        self.fill(least, move |bytes| taken_by(draw_lot(task, bytes), bytes))
    }

    // Holds enough for the asker's question of the next round, or all that is left.
    pub fn question(&mut self, task: &Task) -> Result<(), Problem>
        ensures goes_on { GoesOn self.old self.new }
        ensures takes { MatchResult result (λ _. Takes (question_in (task_of task.now)) self.new) (λ _. took self.new ≡ 0) }
        ensures row { OneRow (question_in (task_of task.now)) }
    {
        self.fill(4, move |bytes| taken_by(draw_question(task, bytes), bytes))
    }

    // What it holds for the round.
    pub fn bytes(&self) -> &[u8]
        ensures { result.now ≡ held self.now }
    {
        self.bytes.as_slice()
    }

    // A round takes so many bytes at least; `takes` says how many of these bytes it takes, and nothing where they are too few. So a lot is drawn once here, to see
    // whether the bytes suffice, and once by the round's step, which gives its state up where it is refused, and so can't be tried. Where values are passed over,
    // as many bytes again are read as there are: after 64 times no memory would hold them, and the bound is there only since a loop has to end.
    fn fill<F: Fn(&[u8]) -> Option<usize>>(&mut self, least: usize, takes: F) -> Result<(), Problem>
        requires { F.IsAlwaysCallable takes }
        ensures goes_on { GoesOn self.old self.new }
        ensures said { IfOk result (λ _. (said : Option ℕ) × FnReturnsAt F.Fn takes (held self.new) said × (took self.new ≡ or_none said)) }
        ensures told { IfErr result (λ _. took self.new ≡ 0) }
    {
        self.let_go();
        let held = self.bytes.len();
        self.read(least.saturating_sub(held))?;
        let mut said = takes(self.bytes());
        for _ in 0..64 {
            let held = self.bytes.len();
            if said.is_some() || self.read(held.max(4))? == 0 {
                break;
            }
            said = takes(self.bytes());
        }
        self.taken = said.unwrap_or(0);
        Ok(())
    }

    // Reads so many bytes more, or fewer where they end before.
    fn read(&mut self, count: usize) -> Result<usize, Problem>
        ensures count { IfOk result (λ n. vec_len self.new.bytes ≡ vec_len self.old.bytes + n) }
        ensures front { StartsWith (held self.new) (held self.old) }
        ensures took { took self.new ≡ took self.old }
    {
        self.input.read(count as u64, &mut self.bytes)
    }

    // The bytes that the last round took are gone.
    fn let_go(&mut self)
        ensures held { held self.new ≡ left_of self.old }
        ensures took { took self.new ≡ 0 }
    {
        let taken = self.taken.min(self.bytes.len());
        self.bytes.drain(..taken);
        self.taken = 0;
    }
}
