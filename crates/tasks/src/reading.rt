// Tasks and plans read from bytes. All is looked at before anything is kept, so that each fault is told by its number even where memory is wanting. What is read is
// taken apart by `let .. else`, unit by unit: a rule of the project keeps this form in readers.
ghost use Rattle.std.specs.Prelude.{◌≡◌, ◌*◌, ◌/◌, map, length, drop, IfOk};
ghost use Rattle.tasks.specs.Model.{task_of, plan_of};
ghost use Rattle.tasks.specs.Pair.{pair_of};
ghost use Rattle.tasks.specs.Head.{head_of};
ghost use Rattle.tasks.specs.Reading.{Meets, Sees, gives, read_head, read_pair, task_in, read_pairs, pair_in, pairs_from, read_path, read_paths, read_plan_head, read_plan, read_task, ends, looks};
ghost use Rattle.tasks.specs.Task.{sound};
ghost use Rattle.tasks.specs.Writing.{Inverse, task_bytes, plan_bytes, is_plan};

use super::fault::Fault;
use super::kind::Kind;
use super::pair::Pair;
use super::plan::Plan;
use super::task::{MOST_PATHS, MOST_TRAINS, Task};
use paths::MOST_PAIRS;
use std::alloc::{AllocError, Global};

// The numbers before the pairs of a task.
#[derive(Clone, Copy, Debug, PartialEq, Eq)]
pub struct Head {
    pub trains: u16,
    pub paths: u8,
    pub pairs: u16,
}

// The numbers at the front of a task, or the first fault; what stands after them is not looked at.
pub fn read_head(bytes: &[u8]) -> Result<Head, Fault>
    ensures { gives head_of result ≡ read_head bytes.now }
{
    let [kind, ..] = bytes else {
        return Err(Fault::Shape);
    };
    if *kind != Kind::Task.byte() {
        return Err(Fault::Shape);
    }
    let [_, high, low, ..] = bytes else {
        return Err(Fault::Shape);
    };
    let trains = u16::from_be_bytes([*high, *low]);
    if trains < 1 || trains > MOST_TRAINS {
        return Err(Fault::Range);
    }
    let [_, _, _, paths, ..] = bytes else {
        return Err(Fault::Shape);
    };
    let paths = *paths;
    if paths < 1 || paths > MOST_PATHS {
        return Err(Fault::Range);
    }
    let [_, _, _, _, high, low, ..] = bytes else {
        return Err(Fault::Shape);
    };
    let pairs = u16::from_be_bytes([*high, *low]);
    if pairs < 1 || pairs > MOST_PAIRS {
        return Err(Fault::Range);
    }
    Ok(Head {
        trains,
        paths,
        pairs,
    })
}

fn pair_in(bytes: [u8; 4]) -> Pair
    ensures { pair_of result ≡ pair_in bytes }
{
    let [a, b, c, d] = bytes;
    Pair {
        first: u16::from_be_bytes([a, b]),
        second: u16::from_be_bytes([c, d]),
    }
}

// A pair, and what stands after it.
fn read_pair(trains: u16, last: Pair, bytes: &[u8]) -> Result<(Pair, &[u8]), Fault>
    ensures pair { gives (λ p. pair_of p.0) result ≡ read_pair trains (pair_of last) bytes.now }
    ensures rest { IfOk result (λ p. p.1.now ≡ drop 4 bytes.now) }
{
    let [a, b, c, d, rest @ ..] = bytes else {
        return Err(Fault::Shape);
    };
    let pair = pair_in([*a, *b, *c, *d]);
    if pair.first >= trains || pair.second >= trains {
        return Err(Fault::Range);
    }
    if pair.first >= pair.second || !last.before(pair) {
        return Err(Fault::Order);
    }
    Ok((pair, rest))
}

fn check_pairs(head: Head, bytes: &[u8]) -> Result<(), Fault>
    ensures { looks result ≡ read_pairs head.trains head.pairs bytes.now }
{
    let mut rest = bytes;
    // before each pair that can be good, as the definition begins
    let mut last = Pair {
        first: 0,
        second: 0,
    };
    for _ in 0..head.pairs {
        (last, rest) = read_pair(head.trains, last, rest)?;
    }
    end(rest)
}

fn end(rest: &[u8]) -> Result<(), Fault>
    ensures { looks result ≡ ends rest.now }
{
    if rest.is_empty() {
        Ok(())
    } else {
        Err(Fault::Shape)
    }
}

// Whether these bytes are a task, of which only the head is kept, or the first fault.
pub fn check_task(bytes: &[u8]) -> Result<Head, Fault>
    ensures { gives (λ h. task_in (head_of h) (drop 6 bytes.now)) result ≡ read_task bytes.now }
{
    let head = read_head(bytes)?;
    check_pairs(head, &bytes[6..])?;
    Ok(head)
}

// The pairs as they stand in bytes that were looked at.
fn collect_pairs(heap: Global, bytes: &[u8]) -> Result<Vec<Pair>, AllocError>
    ensures { IfOk result (λ v. map pair_of v.items ≡ pairs_from (length bytes.now / 4) bytes.now) }
{
    let (units, _) = bytes.as_chunks::<4>();
    units.iter().map(|unit| pair_in(*unit)).collect(heap)
}

// What stands after a path.
fn check_path(paths: u8, bytes: &[u8]) -> Result<&[u8], Fault>
    ensures path { gives (λ _. tt) result ≡ read_path paths tt bytes.now }
    ensures rest { IfOk result (λ rest. rest.now ≡ drop 1 bytes.now) }
{
    let [path, rest @ ..] = bytes else {
        return Err(Fault::Shape);
    };
    if *path >= paths {
        return Err(Fault::Range);
    }
    Ok(rest)
}

// Task and bytes one by one, here and in the readers of plans: a plan may be read for any task, and nothing ties the two.
fn check_paths(task: &Task, bytes: &[u8]) -> Result<(), Fault>
    ensures { looks result ≡ read_paths task.now.paths task.now.trains bytes.now }
{
    let mut rest = bytes;
    for _ in 0..task.trains {
        rest = check_path(task.paths, rest)?;
    }
    end(rest)
}

fn check_plan_head(trains: u16, bytes: &[u8]) -> Result<(), Fault>
    ensures { looks result ≡ read_plan_head trains bytes.now }
{
    let [kind, ..] = bytes else {
        return Err(Fault::Shape);
    };
    if *kind != Kind::Plan.byte() {
        return Err(Fault::Shape);
    }
    let [_, high, low, ..] = bytes else {
        return Err(Fault::Shape);
    };
    if u16::from_be_bytes([*high, *low]) != trains {
        return Err(Fault::Shape);
    }
    Ok(())
}

// Whether these bytes are a plan for the task, or the first fault; nothing of it is kept.
pub fn check_plan(task: &Task, bytes: &[u8]) -> Result<(), Fault>
    ensures { gives (λ _. drop 3 bytes.now) result ≡ read_plan (task_of task.now) bytes.now }
{
    check_plan_head(task.trains, bytes)?;
    check_paths(task, &bytes[3..])
}

// A task of these bytes, or the first fault.
#[tactic(auto, using(crate::proofs::TaskLaws::task_law, crate::proofs::Fronts::task_front))]
pub fn read_task(heap: Global, bytes: &[u8]) -> Result<Task, Fault>
    ensures answer { Meets task_of result (read_task bytes.now) }
    ensures written { IfOk result (λ t. task_bytes (task_of t) ≡ bytes.now) }
    ensures law { Inverse read_task task_bytes sound }
    ensures front { Sees 16390 read_task }
{
    let head = check_task(bytes)?;
    let pairs = collect_pairs(heap, &bytes[6..])?;
    Ok(Task {
        trains: head.trains,
        paths: head.paths,
        pairs,
    })
}

// A plan for the task, whether it fits or not, of these bytes, or the first fault.
#[tactic(auto, using(crate::proofs::PlanLaws::plan_law, crate::proofs::Fronts::plan_front))]
pub fn read_plan(heap: Global, task: &Task, bytes: &[u8]) -> Result<Plan, Fault>
    ensures answer { Meets plan_of result (read_plan (task_of task.now) bytes.now) }
    ensures written { IfOk result (λ p. plan_bytes (plan_of p) ≡ bytes.now) }
    ensures law { Inverse (read_plan (task_of task.now)) plan_bytes (is_plan (task_of task.now)) }
    ensures front { Sees 1027 (read_plan (task_of task.now)) }
{
    check_plan(task, bytes)?;
    let paths = Vec::from_slice(heap, &bytes[3..])?;
    Ok(Plan { paths })
}
