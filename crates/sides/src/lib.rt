// Where the programs begin their sides: the calls whose contracts carry what is promised of whole runs.
#![tactic(auto)]

mod asker;
mod planner;

pub use asker::start_asker;
pub use planner::start_planner;
