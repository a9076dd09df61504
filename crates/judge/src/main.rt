// The judge: from the words of a showing and its last digest it finds whether the showing was content.
#![tactic(auto)]

mod digest;
mod hearing;
mod telling;

use arguments::{Arguments, Wrong};
use command::{Ending, Input, Problem, Program, Usage, load_fitting_plan, load_task, run};
use digest::digest_in;
use drawing::default_rounds;
use hearing::Hearing;
use judging::Judge;
use keeping::Drawn;
use std::process::ExitCode;
use tasks::{Fault, Plan, Task};
use telling::tell;

// The files of what the planner hands over.
#[derive(Drop)]
struct Names {
    plan: String,
    drawn: String,
}

#[derive(Drop)]
struct Options {
    task: String,
    words: String,
    digest: String,
    handed_over: Option<Names>,
}

// The plan and the drawn bytes come together, or not at all.
fn read_handed_over(arguments: &mut Arguments) -> Result<Option<Names>, Wrong> {
    match (arguments.take("--plan"), arguments.take("--drawn")) {
        (None, None) => Ok(None),
        (Some(plan), Some(drawn)) => Ok(Some(Names { plan, drawn })),
        (Some(_), None) => Err(Wrong::Missing("--drawn")),
        (None, Some(_)) => Err(Wrong::Missing("--plan")),
    }
}

fn read_options(mut arguments: Arguments) -> Result<Options, Wrong> {
    let options = Options {
        task: arguments.need("--task")?,
        words: arguments.need("--words")?,
        digest: arguments.need("--digest")?,
        handed_over: read_handed_over(&mut arguments)?,
    };
    arguments.end()?;
    Ok(options)
}

// A fault of the plan is told late, and any other problem at once: two errors, each in its own place of the type. The judge doesn't tell the pair that a plan
// fails.
fn load_plan(
    rt: &HostRuntime,
    task: &Task,
    name: String,
) -> Result<Result<Plan, Problem>, Problem> {
    match load_fitting_plan(rt, task, name) {
        Ok(plan) => Ok(Ok(plan)),
        Err(Problem::Unfit(unfit, file)) => Ok(Err(Problem::InFile(Fault::Unfit(unfit), file))),
        Err(problem @ Problem::InFile(..)) => Ok(Err(problem)),
        Err(other) => Err(other),
    }
}

struct TheJudge;

impl Program for TheJudge {
    const USAGE: Usage = Usage {
        call: "usage: judge --task FILE --words FILE --digest HEX [--plan FILE --drawn FILE]",
        options: "  --task FILE    the task: trains, paths, and the pairs of trains that may not share a path
  --words FILE   all words that were sent in the showing
  --digest HEX   the last digest of the showing, 64 hexadecimal digits
  --plan FILE    the planner's plan, where the planner hands it over
  --drawn FILE   the planner's drawn bytes, together with the plan
  --help         print this and do nothing else",
    };

    fn run(rt: &HostRuntime, arguments: Arguments) -> Result<Ending, Problem> {
        let Options {
            task,
            words,
            digest,
            handed_over,
        } = read_options(arguments)?;
        let task = load_task(rt, task)?.value;
        let last = digest_in(digest.as_str()).ok_or(Wrong::Word(digest))?;
        let default = default_rounds(task.pairs.len() as u16);
        let words = Input::open(rt, words)?;
        let (plan, drawn) = handed_over.map(|names| (names.plan, names.drawn)).unzip();
        let plan = plan.map(|name| load_plan(rt, &task, name)).transpose()?;
        let drawn = drawn.map(|name| Drawn::open(rt, name)).transpose()?;
        // a plan with a fault is none for the judge; the fault is told behind what the words say
        let (plan, faulty) = match plan.transpose() {
            Ok(plan) => (plan, None),
            Err(problem) => (None, Some(problem)),
        };
        let judge = Judge::start(rt.alloc(), task, plan)?;
        let verdict = Hearing::new(rt.alloc(), words, drawn).all(judge, last)?;
        tell(rt, verdict, default, faulty)
    }
}

fn main(rt: HostRuntime) -> ExitCode {
    run::<TheJudge>(&rt)
}
