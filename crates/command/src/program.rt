// How a program begins and ends: its command line, and its exit status.
ghost use Rattle.std.specs.Prelude.{◌≡◌, ◌⊎◌, List, Result, String, drop, ⊤, true, IfErr, MatchResult, MatchOption};
ghost use Rattle.std.specs.declared.alloc.Global.{Global};
ghost use Rattle.std.specs.Process.{exit_status};
ghost use Rattle.command.specs.Endings.{AsksNoHelp, asks_help, status_of, Ran};
ghost use Rattle.command.specs.declared.problem.Ending.{Ending};
ghost use Rattle.command.specs.declared.problem.Problem.{Problem};

use super::problem::{Ending, Problem, conclude};
use arguments::Arguments;
use std::env;
use std::process::ExitCode;

// How a program is called, and what its options are.
#[derive(Clone, Copy)]
pub struct Usage {
    pub call: &'static str,
    pub options: &'static str,
}

// The words of a command line, which begins with the program's name; none where they ask for help, which is told.
pub fn read_arguments(
    rt: &HostRuntime,
    usage: Usage,
    words: Vec<String>,
) -> Result<Option<Arguments>, Problem>
    ensures words { MatchResult result
        (λ given. MatchOption given (asks_help (drop 1 words.items) ≡ true) (λ arguments. AsksNoHelp arguments × (arguments.words.items ≡ drop 1 words.items)))
        (λ _. asks_help (drop 1 words.items) ≡ true) }
{
    let mut arguments = Arguments::new(words);
    if arguments.flag("--help") {
        rt.println(usage.call)?;
        rt.println(usage.options)?;
        return Ok(None);
    }
    Ok(Some(arguments))
}

// Tells a problem, where there is one, and gives the status to end with: 0 exactly where all is well.
pub fn exit_code(rt: &HostRuntime, usage: Usage, outcome: Result<Ending, Problem>) -> ExitCode
    ensures { exit_status result ≡ status_of outcome }
{
    match conclude(rt, usage.call, outcome) {
        Ok(()) => ExitCode::SUCCESS,
        Err(()) => ExitCode::FAILURE,
    }
}

// A program: how it is called, and what it does with the words of its command line. A trait, since `run` can't hand the answer of a closure on: a problem may hold
// a `&'static str`, and the borrow checker says that "a call gives a callee another lifetime for `'static`".
pub trait Program {
    const USAGE: Usage;

    // How it may end on these words. What a program says of itself, `run_on` says of its status.
    ghost ends: { List (String Global) → Result Ending Problem → Type 0 } = { λ _ _. ⊤ };

    fn run(rt: &HostRuntime, arguments: Arguments) -> Result<Ending, Problem>
        ensures { ends arguments.words.items result };
}

// Runs a program on the words of a command line, and gives the status to end with. Where help is asked for, that is all.
pub fn run_on<P: Program>(rt: &HostRuntime, words: Vec<String>) -> ExitCode
    ensures { Ran P.ends (drop 1 words.items) (exit_status result) }
{
    let arguments = match read_arguments(rt, P::USAGE, words) {
        Ok(Some(arguments)) => arguments,
        Ok(None) => return exit_code(rt, P::USAGE, Ok(Ending::Well)),
        Err(problem) => return exit_code(rt, P::USAGE, Err(problem)),
    };
    exit_code(rt, P::USAGE, P::run(rt, arguments))
}

fn command_line(rt: &HostRuntime) -> Result<Vec<String>, Problem> {
    Ok(env::args(rt)?.collect(rt.alloc())?)
}

// Runs a program on its own command line. Where that can't be had, it is a problem.
pub fn run<P: Program>(rt: &HostRuntime) -> ExitCode
    ensures { (exit_status result ≡ 1) ⊎ ((words : List (String Global)) × Ran P.ends (drop 1 words) (exit_status result)) }
{
    match command_line(rt) {
        Ok(words) => run_on::<P>(rt, words),
        Err(problem) => exit_code(rt, P::USAGE, Err(problem)),
    }
}

#[cfg(test)]
mod tests {
    use super::{Program, Usage, read_arguments, run, run_on};
    use crate::problem::{Ending, Problem};
    use arguments::Arguments;
    use std::process::ExitCode;
    use std::test::Fail;

    struct Quiet;

    impl Program for Quiet {
        const USAGE: Usage = Usage {
            call: "",
            options: "",
        };

        fn run(_rt: &HostRuntime, _arguments: Arguments) -> Result<Ending, Problem> {
            Ok(Ending::Well)
        }
    }

    #[test]
    fn reads_the_words(rt: HostRuntime) -> Result<(), Fail> {
        let words = vec![in rt.alloc(); String::from_str(rt.alloc(), "quiet")?]?;
        let arguments = read_arguments(&rt, Quiet::USAGE, words)?;
        assert!(rt; arguments.is_some());
        Ok(())
    }

    #[test]
    fn ends_well(rt: HostRuntime) -> Result<(), Fail> {
        assert_eq!(rt; run::<Quiet>(&rt), ExitCode::SUCCESS);
        assert_eq!(rt;
            run_on::<Quiet>(&rt, Vec::new(rt.alloc())),
            ExitCode::SUCCESS
        );
        Ok(())
    }
}
