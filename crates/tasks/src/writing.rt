// Tasks and plans written as bytes.
ghost use Rattle.std.specs.Prelude.{◌≡◌, IfOk};
ghost use Rattle.tasks.specs.Model.{task_of, plan_of};
ghost use Rattle.tasks.specs.Pair.{pair_of};
ghost use Rattle.tasks.specs.Writing.{head_bytes, pair_bytes, task_bytes, plan_bytes};

use super::kind::Kind;
use super::pair::Pair;
use super::plan::Plan;
use super::reading::Head;
use super::task::Task;
use std::alloc::{AllocError, Global};

fn head_bytes(head: Head) -> [u8; 6]
    ensures { result ≡ head_bytes head.trains head.paths head.pairs }
{
    let [a, b] = head.trains.to_be_bytes();
    let [c, d] = head.pairs.to_be_bytes();
    [Kind::Task.byte(), a, b, head.paths, c, d]
}

fn pair_bytes(pair: Pair) -> [u8; 4]
    ensures { result ≡ pair_bytes (pair_of pair) }
{
    let [a, b] = pair.first.to_be_bytes();
    let [c, d] = pair.second.to_be_bytes();
    [a, b, c, d]
}

// The bytes of a task.
pub fn write_task(heap: Global, task: &Task) -> Result<Vec<u8>, AllocError>
    ensures { IfOk result (λ v. v.items ≡ task_bytes (task_of task.now)) }
{
    let head = head_bytes(Head {
        trains: task.trains,
        paths: task.paths,
        pairs: task.pairs.len() as u16,
    });
    let mut bytes = Vec::from_slice(heap, &head)?;
    for pair in task.pairs.iter() {
        bytes.extend_from_slice(&pair_bytes(*pair))?;
    }
    Ok(bytes)
}

// The bytes of a plan. `words` writes the same of any paths into memory that is lent: the two share no step.
pub fn write_plan(heap: Global, plan: &Plan) -> Result<Vec<u8>, AllocError>
    ensures { IfOk result (λ v. v.items ≡ plan_bytes (plan_of plan.now)) }
{
    let mut bytes = Vec::new(heap);
    bytes.push(Kind::Plan.byte())?;
    bytes.extend_from_slice(&(plan.paths.len() as u16).to_be_bytes())?;
    bytes.extend_from_slice(plan.paths.as_slice())?;
    Ok(bytes)
}
