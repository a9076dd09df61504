// Damaged words and good ones, each read as it is and from a stream that gives a byte at a time: a line for each, refusals too.
#![tactic(auto)]

mod cases;
mod told;

use anyhow::anyhow;
use cases::Table;
use tasks::read_task;

// Three trains, two paths, and the pairs 0-1 and 1-2.
const TASK: [u8; 14] = [1, 0, 3, 2, 0, 2, 0, 0, 0, 1, 0, 1, 0, 2];

fn main(rt: HostRuntime) -> anyhow::Result<()> {
    let task = read_task(rt.alloc(), &TASK).map_err(|_| anyhow!("the task is refused"))?;
    let table = Table {
        rt: &rt,
        task: &task,
    };
    table.good_words(&TASK)?;
    table.damaged_words()
}
