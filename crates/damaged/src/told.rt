// What bytes are read as, in words.
use std::fmt;
use tasks::Fault;
use words::Word;

#[derive(Drop)]
pub struct Told<'a> {
    pub answer: Result<Word<'a>, Fault>,
}

impl fmt::Display for Told<'_> {
    fn fmt<W: fmt::Write>(&self, f: &mut fmt::Formatter<W>) -> fmt::Result {
        match &self.answer {
            Err(fault) => write!(f, "fault {}", fault.number()),
            Ok(word) => tell_word(*word, f),
        }
    }
}

fn tell_word<W: fmt::Write>(word: Word<'_>, f: &mut fmt::Formatter<W>) -> fmt::Result {
    match word {
        Word::Task(bytes) => write!(f, "Task of {} bytes", bytes.len()),
        Word::Plan(paths) => tell_plan(paths, f),
        Word::Boxes(round, digests) => write!(
            f,
            "Boxes of round {round}, {} bytes of digests",
            digests.len()
        ),
        Word::Ask(round, pair) => write!(f, "Ask of round {round}, pair {pair}"),
        Word::Opened(round, first, second) => write!(
            f,
            "Opened of round {round}, train {} has {}, train {} has {}",
            first.train, first.number, second.train, second.number
        ),
        Word::End(round, true) => write!(f, "End of round {round}, content"),
        Word::End(round, false) => write!(f, "End of round {round}, not content"),
    }
}

fn tell_plan<W: fmt::Write>(paths: &[u8], f: &mut fmt::Formatter<W>) -> fmt::Result {
    write!(f, "Plan")?;
    for path in paths {
        write!(f, " {path}")?;
    }
    Ok(())
}
