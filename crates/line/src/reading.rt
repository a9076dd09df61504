// One word read from a stream, and no byte of the next.
ghost use Rattle.std.specs.Prelude.{◌≡◌, ◌≢◌, ◌<◌, ◌≤◌, ◌++◌, length, take, vec_len, Ok, IfErr, IfOk, IfSome, MatchResult, OnOk, OnSome};
ghost use Rattle.std.specs.ControlFlow.{IsContinueAnd, ForBreak};
ghost use Rattle.std.specs.declared.ops.ControlFlow.TheVariants.{Break};
ghost use Rattle.std.specs.Io.KnownBytes.{Consumes, IsAtEnd};
ghost use Rattle.std.specs.IoError.{error_kind};
ghost use Rattle.std.specs.declared.io.ErrorKind.TheVariants.{Interrupted};
ghost use Rattle.tasks.specs.Model.{task_of};
ghost use Rattle.words.specs.Stops.{next_stop};
ghost use Rattle.line.specs.declared.error.LineError.TheVariants.{Stream};
ghost use Rattle.line.specs.Wanted.{Wanted, OneWord, Ended, ExactWord, Taken};

use super::error::LineError;
use std::alloc::AllocError;
use std::io;
use std::io::{BufRead, ErrorKind};
use std::ops::ControlFlow;
use tasks::Task;
use words::next_stop;

// A turn takes a byte at least, or is interrupted, or is the last. No word has more than 32775 bytes: the rest of the million is for interrupted calls.
const TURNS: u32 = 1000000;

// Adds what fits before the stop, and answers how much.
fn add_part(held: &[u8], stop: usize, word: &mut Vec<u8>) -> Result<usize, AllocError>
    requires { vec_len word.old < stop }
    ensures added { MatchResult result
        (λ n. word.new.items ≡ word.old.items ++ take n held.now)
        (λ _. word.new.items ≡ word.old.items) }
    ensures short { vec_len word.new ≤ stop }
    ensures within { IfOk result (λ n. n ≤ length held.now) }
    ensures some { IfOk result (λ n. n ≡ 0 → length held.now ≡ 0) }
{
    let n = held.len().min(stop - word.len());
    word.extend_from_slice(&held[..n])?;
    Ok(n)
}

// Takes what the reader holds, but none beyond the stop, and breaks off where there is nothing more to take. An interrupted call takes nothing and is no error.
#[tactic(auto, using(std::proofs::BufReadLemmas::Consumes_shown))]
fn take_part<R: BufRead>(
    reader: &mut R,
    stop: usize,
    word: &mut Vec<u8>,
) -> Result<ControlFlow<()>, LineError>
    requires { vec_len word.old < stop }
    ensures taken { Taken (R.remaining reader.old) (R.remaining reader.new) word.old.items word.new.items }
    ensures short { vec_len word.new ≤ stop }
    ensures end { IfOk result (λ go. ForBreak go
        (λ _. OnSome (R.remaining reader.old) (IsAtEnd (R.remaining reader.new)))) }
{
    let held = match reader.fill_buf() {
        Ok(held) => held,
        Err(error) => return interrupted(error),
    };
    let n = add_part(held, stop, word)?;
    reader.consume(n);
    Ok(if n == 0 {
        ControlFlow::Break(())
    } else {
        ControlFlow::Continue(())
    })
}

fn interrupted(error: io::Error) -> Result<ControlFlow<()>, LineError>
    ensures again { IfOk result (λ go. IsContinueAnd go (λ _. error_kind error ≡ Interrupted)) }
    ensures told { IfErr result (λ e. (e ≡ Stream error) × (error_kind error ≢ Interrupted)) }
{
    if error.kind() == ErrorKind::Interrupted {
        Ok(ControlFlow::Continue(()))
    } else {
        Err(LineError::Stream(error))
    }
}

// Takes a part of what is wanted.
fn one_turn<R: BufRead>(
    reader: &mut R,
    task: &Task,
    word: &mut Vec<u8>,
) -> Result<ControlFlow<()>, LineError>
    requires { Wanted (task_of task.now) word.old.items }
    ensures wanted { Wanted (task_of task.now) word.new.items }
    ensures taken { Taken (R.remaining reader.old) (R.remaining reader.new) word.old.items word.new.items }
    ensures whole { IfOk result (λ go. ForBreak go (λ _. OnSome (R.remaining reader.old)
        (Ended (task_of task.now) word.new.items (R.remaining reader.new)))) }
    ensures over { next_stop (task_of task.now) word.old.items ≤ vec_len word.old → result ≡ Ok (Break tt) }
{
    let stop = next_stop(task, word.as_slice());
    if stop <= word.len() {
        return Ok(ControlFlow::Break(()));
    }
    take_part(reader, stop, word)
}

// Reads one word, in place of what stood in `word`: to its end, to where it can no longer be good, or to the end of the input.
#[tactic(auto, using(crate::proofs::Wants::one_word_of, crate::proofs::Wants::few_of))]
pub fn read_word_from<R: BufRead>(
    reader: &mut R,
    task: &Task,
    word: &mut Vec<u8>,
) -> Result<(), LineError>
    // At any reader.
    ensures wanted { Wanted (task_of task.now) word.new.items }
    ensures few { vec_len word.new ≤ 32775 }
    ensures law { OneWord (task_of task.now) }

    // Where its bytes are known.
    ensures taken { Consumes (R.remaining reader.old) (R.remaining reader.new) word.new.items }
    ensures whole { OnOk result (OnSome (R.remaining reader.old)
        (Ended (task_of task.now) word.new.items (R.remaining reader.new))) }
    ensures exact { OnOk result (IfSome (R.remaining reader.old)
        (λ xs. ExactWord (task_of task.now) xs word.new.items (R.remaining reader.new))) }
{
    word.clear();
    for _ in 0..TURNS {
        if one_turn(reader, task, word)?.is_break() {
            return Ok(());
        }
    }
    Err(LineError::Stream(io::Error::from(ErrorKind::Interrupted)))
}
