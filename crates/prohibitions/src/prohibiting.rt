// Trains that may not use some path: the task is built anew, with a train more for each path. All is looked at before anything is kept, so that a fault is told
// even where memory is wanting.
ghost use Rattle.std.specs.Prelude.{◌≡◌, ◌+◌, ◌≤◌, [], true, map, length, IfOk, ◌++◌, nat_le};
ghost use Rattle.tasks.specs.Model.{task_of};
ghost use Rattle.tasks.specs.Pair.{pair_of};
ghost use Rattle.tasks.specs.Reading.{Meets};
ghost use Rattle.prohibitions.specs.Prohibiting.{Fixes, prohibit, built, can_build, is_named, named, pair_for, put, put_all, with_each, every_two};
ghost use Rattle.prohibitions.specs.Putting.{in_order, Makes, different_after};

use std::alloc::{AllocError, Global};
use tasks::{Fault, MOST_PAIRS, MOST_TRAINS, Pair, Task};

// A train, and a path that it may not use.
#[derive(Clone, Copy, Debug, PartialEq, Eq)]
pub struct Prohibition {
    pub train: u16,
    pub path: u8,
}

// Does it name a train and a path that are there?
fn is_named(task: &Task, prohibition: Prohibition) -> bool
    ensures { result ≡ is_named (task_of task.now) prohibition }
{
    prohibition.train < task.trains && prohibition.path < task.paths
}

fn all_named(task: &Task, prohibitions: &[Prohibition]) -> bool
    ensures { result ≡ named (task_of task.now) prohibitions.now }
{
    prohibitions
        .iter()
        .all(|prohibition| is_named(task, *prohibition))
}

// Are there no more different ones than so many? From the back, where each is counted as it stands last: one that comes again is found where it comes next, so looking
// for all of one kind goes through the list once, and nothing is looked for once there are too many.
fn few_different(prohibitions: &[Prohibition], most: usize) -> bool
    ensures { result ≡ nat_le (different_after [] prohibitions.now) most }
{
    let mut count = 0;
    for i in (0..prohibitions.len()).rev() {
        let (_, later) = prohibitions.split_at(i + 1);
        if !later.contains(&prohibitions[i]) {
            if count == most {
                return false;
            }
            count += 1;
        }
    }
    true
}

// Has the built task few enough pairs? It has those of the task, every two of the trains that are added, and one for each different prohibition.
fn few_pairs(task: &Task, prohibitions: &[Prohibition]) -> bool
    requires { named (task_of task.now) prohibitions.now ≡ true }
    ensures { result ≡ nat_le (length (built (task_of task.now) prohibitions.now).pairs) 4096 }
{
    let paths = task.paths as usize;
    let others = task.pairs.len() + paths * (paths - 1) / 2;
    let most = MOST_PAIRS as usize;
    others <= most && few_different(prohibitions, most - others)
}

fn can_build(task: &Task, prohibitions: &[Prohibition]) -> bool
    ensures { result ≡ can_build (task_of task.now) prohibitions.now }
{
    task.trains + task.paths as u16 <= MOST_TRAINS
        && all_named(task, prohibitions)
        && few_pairs(task, prohibitions)
}

// Puts a pair at its place among pairs in rising order, unless it is there.
fn put(pairs: &mut Vec<Pair>, pair: Pair) -> Result<(), AllocError>
    requires { in_order (map pair_of pairs.old.items) ≡ true }
    ensures { Makes (put (pair_of pair)) pairs.old.items pairs.new.items result }
{
    let Err(place) = pairs.binary_search(&pair) else {
        return Ok(());
    };
    pairs.insert(place, pair)?;
    Ok(())
}

fn put_all(pairs: &mut Vec<Pair>, more: &[Pair]) -> Result<(), AllocError>
    requires { in_order (map pair_of pairs.old.items) ≡ true }
    ensures { Makes (put_all (map pair_of more.now)) pairs.old.items pairs.new.items result }
{
    for pair in more {
        put(pairs, *pair)?;
    }
    Ok(())
}

// Pairs are added to a list that is lent: a struct around this one list would say no more.
// The j-th of the trains from `from` on, with each before it.
fn add_with_each(more: &mut Vec<Pair>, from: u16, j: u8) -> Result<(), AllocError>
    requires { from + j ≤ 1024 }
    ensures { Makes (λ ys. ys ++ with_each from j j) more.old.items more.new.items result }
{
    for i in 0..j {
        more.push(Pair {
            first: from + i as u16,
            second: from + j as u16,
        })?;
    }
    Ok(())
}

// Every two of `count` trains from `from` on.
fn add_every_two(more: &mut Vec<Pair>, from: u16, count: u8) -> Result<(), AllocError>
    requires { from + count ≤ 1024 }
    ensures { Makes (λ ys. ys ++ every_two from count) more.old.items more.new.items result }
{
    for j in 0..count {
        add_with_each(more, from, j)?;
    }
    Ok(())
}

// A train that may not use some path, with the train that was added for the path.
fn prohibited(task: &Task, prohibition: Prohibition) -> Pair
    ensures { pair_of result ≡ pair_for task.now.trains prohibition }
{
    Pair {
        first: prohibition.train,
        second: task.trains + prohibition.path as u16,
    }
}

fn add_prohibited(
    more: &mut Vec<Pair>,
    task: &Task,
    prohibitions: &[Prohibition],
) -> Result<(), AllocError>
    ensures { Makes (λ ys. ys ++ map (pair_for task.now.trains) prohibitions.now) more.old.items more.new.items result }
{
    for prohibition in prohibitions {
        more.push(prohibited(task, *prohibition))?;
    }
    Ok(())
}

// The pairs of the built task.
fn built_pairs(
    heap: Global,
    task: &Task,
    prohibitions: &[Prohibition],
) -> Result<Vec<Pair>, AllocError>
    requires { task.now.trains + task.now.paths ≤ 1024 }
    ensures { IfOk result (λ v. map pair_of v.items ≡ (built (task_of task.now) prohibitions.now).pairs) }
{
    let mut more = Vec::new(heap);
    add_every_two(&mut more, task.trains, task.paths)?;
    add_prohibited(&mut more, task, prohibitions)?;
    let mut pairs = Vec::from_slice(heap, task.pairs.as_slice())?;
    put_all(&mut pairs, more.as_slice())?;
    Ok(pairs)
}

// The task in which each prohibition is kept: it has a train more for each path, every two of these are a pair, and so is each train that may not use a
// path with the train of that path. Refused by fault 2 where a train or a path isn't there, or the built task would have too many trains or pairs.
pub fn with_prohibitions(
    heap: Global,
    task: &Task,
    prohibitions: &[Prohibition],
) -> Result<Task, Fault>
    ensures answer { Meets task_of result (prohibit (task_of task.now) prohibitions.now) }
    ensures fixes { IfOk result (λ u. Fixes (task_of task.now) prohibitions.now (task_of u)) }
{
    if !can_build(task, prohibitions) {
        return Err(Fault::Range);
    }
    let pairs = built_pairs(heap, task, prohibitions)?;
    Ok(Task {
        trains: task.trains + task.paths as u16,
        paths: task.paths,
        pairs,
    })
}
