// The pair: from the coins of one plan it makes the coins of another plan that show the same, and prints them.
#![tactic(auto)]

ghost use Rattle.std.specs.Prelude.{◌≡◌, IfOk};
ghost use Rattle.command.specs.declared.problem.Ending.TheVariants.{Well};

use arguments::{Arguments, Wrong};
use command::{Ending, Input, Problem, Program, Usage, load_fitting_plan, load_task, run};
use pairing::{Plans, ask_in};
use std::io::{BufWriter, Write};
use std::process::ExitCode;
use tasks::{Fault, MOST_ROUNDS};

// The length of a word that asks for a pair.
const ASK_BYTES: u64 = 7;

#[derive(Drop)]
struct Options {
    task: String,
    first: String,
    second: String,
    coins: String,
    asked: String,
}

fn read_options(mut arguments: Arguments) -> Result<Options, Wrong> {
    let options = Options {
        task: arguments.need("--task")?,
        first: arguments.need("--first")?,
        second: arguments.need("--second")?,
        coins: arguments.need("--coins")?,
        asked: arguments.need("--asked")?,
    };
    arguments.end()?;
    Ok(options)
}

// Reads so many bytes in place of those that are there, or fewer where the file ends before.
fn read(input: &mut Input, count: u64, bytes: &mut Vec<u8>) -> Result<(), Problem> {
    bytes.clear();
    input.read(count, bytes)?;
    Ok(())
}

// The pair asked for in a round; none where the file has ended. A step names the one file that it may read, so the files are not fields of one struct.
fn next_question(
    plans: &Plans,
    round: u32,
    asked: &mut Input,
    bytes: &mut Vec<u8>,
) -> Result<Option<u16>, Problem> {
    read(asked, ASK_BYTES, bytes)?;
    if bytes.is_empty() {
        return Ok(None);
    }
    if round == MOST_ROUNDS {
        return Err(asked.in_round(Fault::TooManyRounds, round));
    }
    let question = ask_in(&plans.task, round, bytes.as_slice()).map_err(|fault| asked.in_round(
        fault, round,
    ))?;
    Ok(Some(question))
}

// The first plan's coin of a round, made into the second plan's.
fn next_coin(
    plans: &Plans,
    round: u32,
    question: u16,
    coins: &mut Input,
    bytes: &mut Vec<u8>,
) -> Result<(), Problem> {
    read(coins, plans.coin_length() as u64, bytes)?;
    plans
        .pair_coin(question, bytes.as_mut_slice())
        .map_err(|fault| coins.in_round(fault, round))
}

// After the last pair the coins must end too.
fn end_of_coins(round: u32, coins: &mut Input, bytes: &mut Vec<u8>) -> Result<(), Problem> {
    read(coins, 1, bytes)?;
    if bytes.is_empty() {
        return Ok(());
    }
    Err(coins.in_round(Fault::Shape, round))
}

fn make_coins(
    rt: &HostRuntime,
    plans: &Plans,
    mut asked: Input,
    mut coins: Input,
) -> Result<(), Problem> {
    let mut out = BufWriter::new(rt.alloc(), rt.stdout()).map_err(|_| Problem::Memory)?;
    let mut bytes = Vec::new(rt.alloc());
    for round in 0..=MOST_ROUNDS {
        let Some(question) = next_question(plans, round, &mut asked, &mut bytes)? else {
            end_of_coins(round, &mut coins, &mut bytes)?;
            break;
        };
        next_coin(plans, round, question, &mut coins, &mut bytes)?;
        out.write_all(bytes.as_slice())?;
    }
    out.flush()?;
    Ok(())
}

struct ThePair;

impl Program for ThePair {
    const USAGE: Usage = Usage {
        call: "usage: pair --task FILE --first FILE --second FILE --coins FILE --asked FILE",
        options: "  --task FILE     the task: trains, paths, and the pairs of trains that may not share a path
  --first FILE    a plan that fits the task
  --second FILE   another plan that fits the task
  --coins FILE    the coins of the first plan: for each round an order (a byte for each path) and the chances (32 bytes for each train)
  --asked FILE    the pairs that were asked for: the words that ask for them, of rounds 0, 1, ..
  --help          print this and do nothing else",
    };

    // Where there is no problem, all is well.
    ghost ends = { λ _ outcome. IfOk outcome (λ ending. ending ≡ Well) };

    fn run(rt: &HostRuntime, arguments: Arguments) -> Result<Ending, Problem> {
        let Options {
            task,
            first,
            second,
            coins,
            asked,
        } = read_options(arguments)?;
        let task = load_task(rt, task)?.value;
        let first = load_fitting_plan(rt, &task, first)?;
        let second = load_fitting_plan(rt, &task, second)?;
        let plans = Plans::new(task, first, second)?;
        let coins = Input::open(rt, coins)?;
        let asked = Input::open(rt, asked)?;
        make_coins(rt, &plans, asked, coins)?;
        Ok(Ending::Well)
    }
}

fn main(rt: HostRuntime) -> ExitCode {
    run::<ThePair>(&rt)
}
