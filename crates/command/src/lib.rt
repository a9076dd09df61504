// What the four programs share: how they begin and end, loading and reading of files, the number of rounds, and how a problem is told.
#![tactic(auto)]

mod files;
mod input;
mod problem;
mod program;
mod rounds;

pub use files::{Loaded, fitting_plan_from, load_fitting_plan, load_task, task_from};
pub use input::Input;
pub use problem::{Ending, Problem, conclude, finish};
pub use program::{Program, Usage, exit_code, read_arguments, run, run_on};
pub use rounds::read_rounds;
