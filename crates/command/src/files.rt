// Files that a program reads: tasks, and plans that fit them. Each function says that its error names the file: no type ties an error to an argument. What stands in
// a file is nobody's contract; so all but the opening is done by functions over any reader, which say what comes of its bytes where these are known.
ghost use Rattle.std.specs.Prelude.{◌≡◌, true, take, IfOk, IfErr, IfSome, MatchResult, None, Ok, Err};
ghost use Rattle.std.specs.Fn.{FnOnceReturnsAt};
ghost use Rattle.paths.specs.Plan.{fits};
ghost use Rattle.tasks.specs.Model.{task_of, plan_of};
ghost use Rattle.tasks.specs.Reading.{got, read_task, read_plan};
ghost use Rattle.tasks.specs.Writing.{task_bytes};
ghost use Rattle.command.specs.Files.{names, told_pair, but_memory, Fails, Unread, RefusesFirst, ReadFrom, Refuses, RefusesPlan};

use super::problem::{Problem, in_reading};
use std::alloc::Global;
use std::fs::File;
use std::io;
use std::io::Read;
use tasks::{Fault, Plan, Task, first_unfit, read_plan, read_task};

// One byte more than the longest good file has. What is longer is refused as this much of it is.
const TASK_BYTES: u64 = 16391;

const PLAN_BYTES: u64 = 1028;

// What the bytes of a file were read as, and the file's name.
#[derive(Drop)]
pub struct Loaded<T> {
    pub value: T,
    pub bytes: Vec<u8>,
    pub name: String,
}

// The file with this name, opened, with the name.
pub fn open_file(rt: &HostRuntime, name: String) -> Result<(File, String), Problem>
    ensures name { IfOk result (λ r. r.1 ≡ name) }
    ensures told { IfErr result (Unread name) }
{
    // The name goes into the error or on: a closure for `map_err` would take it.
    match File::open(rt, name.as_str()) {
        Ok(file) => Ok((file, name)),
        Err(error) => Err(in_reading(error, name)),
    }
}

fn read_at_most<R: Read + Drop>(heap: Global, from: R, most: u64) -> io::Result<Vec<u8>>
    ensures { IfOk result (λ v. IfSome (R.remaining from) (λ xs. v.items ≡ take most xs)) }
{
    let mut bytes = Vec::new(heap);
    from.take(most).read_to_end(&mut bytes)?;
    Ok(bytes)
}

// A fault of a file is told with the file's name; want of memory is nobody's fault.
fn in_file(fault: Fault, name: String) -> Problem
    ensures { result ≡ but_memory fault (Problem.InFile fault name) }
{
    match fault {
        Fault::Memory => Problem::Memory,
        other => Problem::InFile(other, name),
    }
}

// So much of what a reader gives, read as `read` reads it, or the first fault.
fn load<R: Read + Drop, T, F: FnOnce(&[u8]) -> Result<T, Fault>>(
    heap: Global,
    from: R,
    name: String,
    most: u64,
    read: F,
) -> Result<Loaded<T>, Problem>
    requires { F.IsAlwaysCallable read }
    ensures value { IfOk result (λ l. FnOnceReturnsAt F.FnOnce read l.bytes.items (Ok l.value)) }
    ensures bytes { IfOk result (λ l. IfSome (R.remaining from) (λ xs. l.bytes.items ≡ take most xs)) }
    ensures name { IfOk result (λ l. l.name ≡ name) }
    ensures told { IfErr result (λ p. RefusesFirst most (R.remaining from) (λ bs f. FnOnceReturnsAt F.FnOnce read bs (Err f)) name p) }
{
    // The name goes into the error or on, so both of these are matches: a closure for `map_err` would take it.
    let bytes = match read_at_most(heap, from, most) {
        Ok(bytes) => bytes,
        Err(error) => return Err(in_reading(error, name)),
    };
    match read(bytes.as_slice()) {
        Ok(value) => Ok(Loaded { value, bytes, name }),
        Err(fault) => Err(in_file(fault, name)),
    }
}

// The task that a reader gives, or the first fault, told with this name.
pub fn task_from<R: Read + Drop>(
    heap: Global,
    from: R,
    name: String,
) -> Result<Loaded<Task>, Problem>
    ensures bytes { IfOk result (λ l. task_bytes (task_of l.value) ≡ l.bytes.items) }
    ensures name { IfOk result (λ l. l.name ≡ name) }
    ensures reads { IfOk result (λ l. ReadFrom read_task (R.remaining from) (got (task_of l.value))) }
    ensures told { IfErr result (Refuses read_task (R.remaining from) name) }
{
    load(
        heap,
        from,
        name,
        TASK_BYTES,
        move |bytes| read_task(heap, bytes),
    )
}

// The task in a file, or the first fault.
pub fn load_task(rt: &HostRuntime, name: String) -> Result<Loaded<Task>, Problem>
    ensures bytes { IfOk result (λ l. task_bytes (task_of l.value) ≡ l.bytes.items) }
    ensures name { IfOk result (λ l. l.name ≡ name) }
    ensures told { IfErr result (λ p. names p name) }
    ensures fault { IfErr result (Refuses read_task None name) }
{
    let (file, name) = open_file(rt, name)?;
    task_from(rt.alloc(), file, name)
}

// The plan that a reader gives, which must fit the task. Where it doesn't, the first pair that it fails is told.
pub fn fitting_plan_from<R: Read + Drop>(
    heap: Global,
    task: &Task,
    from: R,
    name: String,
) -> Result<Plan, Problem>
    ensures fits { IfOk result (λ p. fits (task_of task.now) (plan_of p) ≡ true) }
    ensures reads { IfOk result (λ p. ReadFrom (read_plan (task_of task.now)) (R.remaining from) (got (plan_of p))) }
    ensures told { IfErr result (RefusesPlan (task_of task.now) (R.remaining from) name) }
{
    let Loaded { value, name, .. } = load(heap, from, name, PLAN_BYTES, move |bytes| {
        read_plan(heap, task, bytes)
    })?;
    match first_unfit(task, &value) {
        None => Ok(value),
        Some(unfit) => Err(Problem::Unfit(unfit, name)),
    }
}

// The plan in a file, which must fit the task.
pub fn load_fitting_plan(rt: &HostRuntime, task: &Task, name: String) -> Result<Plan, Problem>
    ensures fits { IfOk result (λ p. fits (task_of task.now) (plan_of p) ≡ true) }
    ensures told { IfErr result (λ p. names p name) }
    ensures fails { IfErr result (λ p. Fails (task_of task.now) p) }
    ensures fault { IfErr result (RefusesPlan (task_of task.now) None name) }
{
    let (file, name) = open_file(rt, name)?;
    fitting_plan_from(rt.alloc(), task, file, name)
}
