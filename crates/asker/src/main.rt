// The asker: in each round it asks the planner for a pair, and sees that the two trains have different paths.
#![tactic(auto)]

mod showing;

use arguments::Arguments;
use command::{Ending, Problem, Program, Usage, load_task, run};
use keeping::{Options, Showing};
use showing::Asker;
use sides::start_asker;
use soundness::enough_rounds;
use std::process::ExitCode;

struct TheAsker;

impl Program for TheAsker {
    const USAGE: Usage = Usage {
        call: "usage: asker --task FILE --drawn FILE [--rounds N] [--book FILE] [--words FILE] [--progress]",
        options: "  --task FILE    the task: trains, paths, and the pairs of trains that may not share a path
  --drawn FILE   bytes drawn at random, read as they are needed, such as /dev/urandom
  --rounds N     how many rounds to ask for, at most 16777216
  --book FILE    where to write the digest of each round
  --words FILE   where to write all words that were sent
  --progress     tell on standard error how far the showing is
  --help         print this and do nothing else",
    };

    fn run(rt: &HostRuntime, mut arguments: Arguments) -> Result<Ending, Problem> {
        let task = arguments.need("--task")?;
        let options = Options::read(arguments)?;
        let task = load_task(rt, task)?.value;
        let showing = Showing::open(rt, options, enough_rounds(&task))?;
        let awaiting = start_asker(rt.alloc(), task, showing.rounds)?;
        let mut asker = Asker {
            showing,
            late: Ok(()),
        };
        let over = asker.all_rounds(awaiting)?;
        let ending = asker.showing.end(over);
        asker.late?;
        Ok(ending)
    }
}

fn main(rt: HostRuntime) -> ExitCode {
    run::<TheAsker>(&rt)
}
