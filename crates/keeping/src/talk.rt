// The line to the other side: its words on standard input, one's own on standard output.
ghost use Rattle.std.specs.Prelude.{IfOk, OnOk, IfSome, OnSome};
ghost use Rattle.std.specs.Io.KnownBytes.{Appends, Consumes};
ghost use Rattle.tasks.specs.Model.{task_of};
ghost use Rattle.line.specs.Wanted.{Wanted, Ended, ExactWord};

use command::Problem;
use line::read_word_from;
use std::alloc::Global;
use std::io;
use std::io::{BufRead, BufReader, Stdin, Write};
use tasks::Task;

#[derive(Drop)]
pub struct Line<'a> {
    rt: &'a HostRuntime,
    input: BufReader<Stdin>,
}

// The word as it stands, and nothing else.
#[tactic(auto, using(crate::proofs::Writes::appends_kept))]
pub fn send_to<W: Write>(out: &mut W, word: &[u8]) -> io::Result<()>
    ensures { OnOk result (Appends (W.contents out.old) (W.contents out.new) word.now) }
{
    out.write_all(word)?;
    out.flush()
}

// The next word, or what is there of it where the reader ends, and nothing after it.
pub fn hear_from<R: BufRead>(heap: Global, reader: &mut R, task: &Task) -> Result<Vec<u8>, Problem>
    ensures wanted { IfOk result (λ word. Wanted (task_of task.now) word.items) }
    ensures taken { IfOk result (λ word. Consumes (R.remaining reader.old) (R.remaining reader.new) word.items) }
    ensures whole { IfOk result (λ word. OnSome (R.remaining reader.old) (Ended (task_of task.now) word.items (R.remaining reader.new))) }
    ensures exact { IfOk result (λ word. IfSome (R.remaining reader.old) (λ xs. ExactWord (task_of task.now) xs word.items (R.remaining reader.new))) }
{
    let mut word = Vec::new(heap);
    read_word_from(reader, task, &mut word)?;
    Ok(word)
}

impl<'a> Line<'a> {
    pub fn new(rt: &'a HostRuntime) -> Result<Line<'a>, Problem> {
        Ok(Line {
            rt,
            input: BufReader::new(rt.alloc(), rt.stdin()).map_err(|_| Problem::Memory)?,
        })
    }

    pub fn send(&self, word: &[u8]) -> Result<(), Problem> {
        send_to(&mut self.rt.stdout(), word)?;
        Ok(())
    }

    // The next word, or what is there of it where the input ends, and nothing after it.
    pub fn hear(&mut self, task: &Task) -> Result<Vec<u8>, Problem>
        ensures wanted { IfOk result (λ word. Wanted (task_of task.now) word.items) }
    {
        hear_from(self.rt.alloc(), &mut self.input, task)
    }
}
