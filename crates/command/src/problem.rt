// Why a program ends with status 1, and how that is told.
ghost use Rattle.std.specs.Prelude.{◌≡◌, is_ok};
ghost use Rattle.command.specs.Endings.{is_well};
ghost use Rattle.command.specs.declared.problem.Problem.{Problem};
ghost use Rattle.command.specs.Files.{names, but_memory, line_problem, InReading, Unread};

use arguments::Wrong;
use line::LineError;
use std::alloc::{AllocError, AllocFailed};
use std::io;
use std::io::ErrorKind;
use tasks::{Fault, Unfit};
use thiserror::Error;

#[derive(Debug, Drop, Error)]
pub enum Problem {
    #[error(transparent)]
    Argument(#[from] Wrong),
    // A file that can't be opened or read.
    #[error("can't read {0}: {1}")]
    File(String, io::Error),
    // A file that can't be written.
    #[error("can't write {0}: {1}")]
    Written(String, io::Error),
    #[error("{0}")]
    Fault(Fault),
    #[error("{0}, in {1}")]
    InFile(Fault, String),
    #[error("{0}, round {1}, in {2}")]
    InRound(Fault, u32, String),
    // A plan that fails a pair, told with the pair.
    #[error("{fault}, pair {pair}, trains {first} and {second}, in {1}", fault = Fault::Unfit(*.0), pair = .0.pair, first = .0.first, second = .0.second)]
    Unfit(Unfit, String),
    #[error(transparent)]
    Stream(#[from] io::Error),
    #[error("out of memory")]
    Memory,
}

// These stand by hand: the last two choose the case, and `#[from(alloc)]` would put an AllocError into the case Memory, which holds nothing.
impl From<AllocError> for Problem {
    ghost from_gives = { λ _ p. p ≡ Problem.Memory };

    fn from(_error: AllocError) -> Problem {
        Problem::Memory
    }
}

impl<T: Drop> From<AllocFailed<T>> for Problem {
    ghost from_gives = { λ _ p. p ≡ Problem.Memory };

    fn from(_refused: AllocFailed<T>) -> Problem {
        Problem::Memory
    }
}

impl From<LineError> for Problem {
    ghost from_gives = { λ error p. p ≡ line_problem error };

    fn from(error: LineError) -> Problem {
        match error {
            LineError::Stream(error) => Problem::Stream(error),
            LineError::Memory => Problem::Memory,
        }
    }
}

impl From<Fault> for Problem {
    ghost from_gives = { λ fault p. p ≡ but_memory fault (Problem.Fault fault) };

    fn from(fault: Fault) -> Problem {
        match fault {
            Fault::Memory => Problem::Memory,
            other => Problem::Fault(other),
        }
    }
}

// An error met in reading the file of this name. Want of memory is nobody's fault.
pub fn in_reading(error: io::Error, name: String) -> Problem
    ensures told { InReading error name result }
    ensures unread { Unread name result }
    ensures names { names result name }
{
    if error.kind() == ErrorKind::OutOfMemory {
        return Problem::Memory;
    }
    Problem::File(name, error)
}

// Tells a problem on standard error, with the usage where an argument is wrong, and hands on that there was one, and no more, since it was told.
pub fn finish(rt: &HostRuntime, usage: &str, res: Result<(), Problem>) -> Result<(), ()>
    ensures { is_ok result ≡ is_ok res }
{
    res.map_err(|problem| tell(rt, usage, problem))
}

// How a program that had no problem ended: all is well, or what it told is not as one would have it. The worse is the greater.
#[derive(Clone, Copy, PartialEq, Eq, PartialOrd, Ord)]
pub enum Ending {
    Well,
    Ill,
}

// As `finish`, and hands on whether all is well.
pub fn conclude(rt: &HostRuntime, usage: &str, res: Result<Ending, Problem>) -> Result<(), ()>
    ensures { is_ok result ≡ is_well res }
{
    match res {
        Ok(Ending::Well) => Ok(()),
        Ok(Ending::Ill) => Err(()),
        Err(problem) => finish(rt, usage, Err(problem)),
    }
}

fn tell(rt: &HostRuntime, usage: &str, problem: Problem) {
    let _ = eprintln!(rt; "{problem}");
    if let Problem::Argument(_) = problem {
        let _ = eprintln!(rt; "{usage}");
    }
}
