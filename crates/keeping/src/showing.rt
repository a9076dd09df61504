// A showing, as both sides go through it.
ghost use Rattle.std.specs.Prelude.{◌≡◌, ℕ, ◌^◌, ◌≤◌, List, IfOk, IfErr, None, Ok, Err};
ghost use Rattle.round.specs.Over.{outcome_of};
ghost use Rattle.round.specs.declared.over.Over.{Over};
ghost use Rattle.keeping.specs.Endings.{ending_of};
ghost use Rattle.keeping.specs.Showing.{Opened};
ghost use Rattle.keeping.specs.declared.showing.Stop.{Stop};

use super::drawn::Drawn;
use super::ending::tell;
use super::options::Options;
use super::progress::Progress;
use super::records::Records;
use super::rounds::rounds_for;
use super::talk::Line;
use command::{Ending, Problem};
use round::Over;
use tasks::{Fault, MOST_ROUNDS, Rounds};

#[derive(Drop)]
pub struct Showing<'a> {
    pub rt: &'a HostRuntime,
    pub line: Line<'a>,
    pub drawn: Drawn,
    pub records: Records,
    pub progress: Progress,
    pub rounds: Rounds,
}

impl<'a> Showing<'a> {
    // With as many rounds as the options say, or the default.
    pub fn open(rt: &'a HostRuntime, options: Options, default: u32) -> Result<Showing<'a>, Problem>
        ensures opened { IfOk result (Opened options default) }
        ensures default { options.rounds ≡ None → default ≤ 2 ^ 24 → IfOk result (λ s. s.rounds.count ≡ default) }
    {
        let Options {
            drawn,
            rounds,
            book,
            words,
            progress,
        } = options;
        let rounds = rounds_for(rounds, default)?;
        Ok(Showing {
            rt,
            line: Line::new(rt)?,
            drawn: Drawn::open(rt, drawn)?,
            records: Records::create(rt, book, words)?,
            progress: Progress::new(rt, progress, rounds.count),
            rounds,
        })
    }

    // A round is closed, with this digest.
    pub fn close_round(&mut self, round: u32, digest: [u8; 32]) -> Result<(), Problem>
        ensures drawn { self.new.drawn ≡ self.old.drawn }
        ensures words { self.new.records.words ≡ self.old.records.words }
        ensures rounds { self.new.rounds ≡ self.old.rounds }
    {
        self.records.digest(round, digest)?;
        self.progress.done(self.rt, round.saturating_add(1));
        Ok(())
    }

    // Tells the end. All is well where the asker was content in all rounds.
    pub fn end(&self, over: Over) -> Ending
        ensures { result ≡ ending_of (outcome_of over.outcome) }
    {
        self.progress.end(self.rt);
        tell(self.rt, over)
    }
}

// Why a side doesn't go on to another round. An enum of its own, with two conversions, so that `?` takes an end of either kind. They are written
// out: nothing prints a Stop, so a derive of `thiserror` would ask for texts that nobody reads.
#[derive(Drop)]
pub enum Stop {
    Over(Over),
    Problem(Problem),
}

impl From<Over> for Stop {
    ghost from_gives = { λ over stop. stop ≡ Stop.Over over };

    fn from(over: Over) -> Stop {
        Stop::Over(over)
    }
}

impl From<Problem> for Stop {
    ghost from_gives = { λ problem stop. stop ≡ Stop.Problem problem };

    fn from(problem: Problem) -> Stop {
        Stop::Problem(problem)
    }
}

// A side: what it has before a round, and how it goes through one.
pub trait Side {
    type Ready: Drop;

    ghost so_far: { Self.Ready → List ℕ };

    fn round(&mut self, ready: Self::Ready) -> Result<Self::Ready, Stop>;

    // Each side's method says this again, since the check doesn't hand the clause on to it.
    fn digest(ready: &Self::Ready) -> [u8; 32]
        ensures { result ≡ so_far ready.now };

    // The digest so far, or the last one. A method of the trait, since the rounds call it: a function with a bound `Side` would close a cycle of calls with them.
    fn digest_of(turn: &Result<Self::Ready, Over>) -> [u8; 32]
        ensures so_far { IfOk turn.now (λ ready. result ≡ so_far ready) }
        ensures last { IfErr turn.now (λ over. result ≡ over.digest) }
    {
        match turn {
            Ok(ready) => Self::digest(ready),
            Err(over) => over.digest,
        }
    }
}

// All rounds, to the end; none after an end. The bound is there only since a loop has to end: a side's own states stop after their last round.
pub fn run<S: Side>(side: &mut S, first: Result<S::Ready, Over>) -> Result<Over, Problem>
    ensures { (over : Over) → first ≡ Err over → result ≡ Ok over }
{
    let mut turn = first.map_err(Stop::Over);
    for _ in 0..=MOST_ROUNDS {
        match turn {
            Ok(ready) => turn = side.round(ready),
            Err(Stop::Over(over)) => return Ok(over),
            Err(Stop::Problem(problem)) => return Err(problem),
        }
    }
    Err(Problem::Fault(Fault::TooManyRounds))
}

#[cfg(test)]
mod tests {
    use super::super::options::Options;
    use super::Showing;
    use std::test::Fail;
    use tasks::read_task;

    // Three trains, two paths and one pair.
    const TASK: [u8; 10] = [1, 0, 3, 2, 0, 1, 0, 0, 0, 1];

    #[test]
    fn opens_and_draws(rt: HostRuntime) -> Result<(), Fail> {
        let task = read_task(rt.alloc(), &TASK)?;
        let options = Options {
            drawn: String::from_str(rt.alloc(), "/dev/zero")?,
            rounds: None,
            book: None,
            words: None,
            progress: false,
        };
        let mut showing = Showing::open(&rt, options, 5)?;
        assert_eq!(rt; showing.rounds.count, 5);
        showing.drawn.question(&task)?;
        assert_eq!(rt; showing.drawn.bytes().len(), 4);
        showing.drawn.lot(&task)?;
        assert_eq!(rt; showing.drawn.bytes().len(), 100);
        Ok(())
    }
}
