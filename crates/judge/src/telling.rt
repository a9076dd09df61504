// The verdict, told line by line on standard output.
use command::{Ending, Problem};
use judging::{Content, Redrawn, Verdict};
use tasks::Fault;

// Tells the verdict, and the fault of a plan in its place, and whether all is well.
pub fn tell(
    rt: &HostRuntime,
    verdict: Verdict,
    default: u32,
    faulty: Option<Problem>,
) -> Result<Ending, Problem> {
    match verdict {
        Verdict::BadWords(fault, round) => println!(rt; "{fault}, round {round}")?,
        Verdict::OtherWords => {
            let fault = Fault::OtherWords;
            println!(rt; "{fault}")?;
        }
        Verdict::Judged(rounds, content, redrawn) => {
            println!(rt;
                "the words fit the digest, {rounds} rounds; the default for this task is {default}"
            )?;
            let first = tell_content(rt, rounds, content)?;
            let second = tell_handed_over(rt, redrawn, faulty)?;
            return Ok(first.max(second));
        }
    }
    Ok(Ending::Ill)
}

fn tell_content(rt: &HostRuntime, rounds: u32, content: Content) -> Result<Ending, Problem> {
    match content {
        Content::All => {
            println!(rt; "content in all {rounds} rounds")?;
            return Ok(Ending::Well);
        }
        Content::Not(round, Ok(())) => println!(rt;
            "not content in round {round}: the opening is good"
        )?,
        Content::Not(round, Err(fault)) => println!(rt; "not content in round {round}: {fault}")?,
        Content::But(round, fault) => println!(rt; "content in round {round}, but {fault}")?,
    }
    Ok(Ending::Ill)
}

// What came of what was handed over. With a faulty plan nothing was drawn again.
fn tell_handed_over(
    rt: &HostRuntime,
    redrawn: Redrawn,
    faulty: Option<Problem>,
) -> Result<Ending, Problem> {
    let Some(problem) = faulty else {
        return tell_redrawn(rt, redrawn);
    };
    println!(rt; "{problem}")?;
    Ok(Ending::Ill)
}

fn tell_redrawn(rt: &HostRuntime, redrawn: Redrawn) -> Result<Ending, Problem> {
    match redrawn {
        Redrawn::NotHanded => return Ok(Ending::Well),
        Redrawn::Agrees => {
            println!(rt; "the plan and the drawn bytes give these words")?;
            return Ok(Ending::Well);
        }
        Redrawn::DrawnOut(round) => {
            let fault = Fault::DrawnOut;
            println!(rt; "{fault}, round {round}")?;
        }
        Redrawn::Differs(round, train) => println!(rt;
            "the plan and the drawn bytes do not give these words: round {round}, train {train}"
        )?,
    }
    Ok(Ending::Ill)
}
