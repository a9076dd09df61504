// A file that is read as a program goes on, told by its name.
ghost use Rattle.std.specs.Prelude.{◌≡◌, ◌+◌, ◌++◌, take, IfOk, IfErr, OnOk, IfSome, vec_len};
ghost use Rattle.std.specs.Io.{StartsWith};
ghost use Rattle.std.specs.Io.Buffered.{reader_remaining};
ghost use Rattle.command.specs.Files.{names, NamedBy, InFileOf, Unread, UnreadCopy};

use super::files::open_file;
use super::problem::{Problem, in_reading};
use std::fs::File;
use std::io;
use std::io::{BufReader, Read};
use tasks::Fault;

// What is read is a file. A parameter, since of a file's bytes no contract knows, and of another reader's it does.
#[derive(Drop)]
pub struct Input<R: Read + Drop = File> {
    pub file: BufReader<R>,
    pub name: String,
}

// Adds so many bytes of a reader, or fewer where it ends before, and answers how many.
fn add_from<R: Read>(reader: &mut R, count: u64, bytes: &mut Vec<u8>) -> io::Result<usize>
    ensures count { IfOk result (λ n. vec_len bytes.new ≡ vec_len bytes.old + n) }
    ensures front { StartsWith bytes.new.items bytes.old.items }
    ensures known { OnOk result (IfSome (R.remaining reader.old) (λ xs. bytes.new.items ≡ bytes.old.items ++ take count xs)) }
{
    reader.take(count).read_to_end(bytes)
}

impl Input {
    // The file with this name.
    pub fn open(rt: &HostRuntime, name: String) -> Result<Input, Problem>
        ensures ok { IfOk result (λ input. input.name ≡ name) }
        ensures told { IfErr result (λ p. names p name) }
        ensures unread { IfErr result (Unread name) }
    {
        let (file, name) = open_file(rt, name)?;
        let file = BufReader::new(rt.alloc(), file).map_err(|_| Problem::Memory)?;
        Ok(Input { file, name })
    }
}

impl<R: Read + Drop> Input<R> {
    // Adds so many bytes, or fewer where the file ends before, and answers how many.
    pub fn read(&mut self, count: u64, bytes: &mut Vec<u8>) -> Result<usize, Problem>
        ensures count { IfOk result (λ n. vec_len bytes.new ≡ vec_len bytes.old + n) }
        ensures front { StartsWith bytes.new.items bytes.old.items }
        ensures known { OnOk result (IfSome (reader_remaining R.remaining self.old.file) (λ xs. bytes.new.items ≡ bytes.old.items ++ take count xs)) }
        ensures name { self.new.name ≡ self.old.name }
        ensures told { IfErr result (UnreadCopy self.old.name) }
    {
        // A match: of what a closure for `map_err` gives, the check doesn't find that it tells the file.
        match add_from(&mut self.file, count, bytes) {
            Ok(size) => Ok(size),
            Err(error) => Err(self.told(Problem::Stream(error))),
        }
    }

    // A problem of a stream, told as one of this file.
    pub fn told(&self, problem: Problem) -> Problem
        ensures { InFileOf self.now.name problem result }
    {
        match problem {
            Problem::Stream(error) => self
                .name
                .clone()
                .map_or(Problem::Memory, |name| in_reading(error, name)),
            other => other,
        }
    }

    // A fault of a round in this file.
    pub fn in_round(&self, fault: Fault, round: u32) -> Problem
        ensures { NamedBy self.now.name (λ name p. p ≡ Problem.InRound fault round name) result }
    {
        self.name.clone().map_or(Problem::Memory, |name| Problem::InRound(fault, round, name))
    }
}

#[cfg(test)]
mod tests {
    use super::Input;
    use crate::problem::Problem;
    use std::io::{Error, ErrorKind};
    use std::test::Fail;
    use tasks::Fault;

    // Opens a file without end, and reads four bytes of it and then two.
    #[test]
    fn reads_on(rt: HostRuntime) -> Result<(), Fail> {
        let name = String::from_str(rt.alloc(), "/dev/zero")?;
        let mut input = Input::open(&rt, name)?;
        let mut bytes = Vec::new(rt.alloc());
        let first = input.read(4, &mut bytes)?;
        let second = input.read(2, &mut bytes)?;
        assert_eq!(rt; first, 4);
        assert_eq!(rt; second, 2);
        assert!(rt; bytes.as_slice() == [0; 6].as_slice());
        Ok(())
    }

    // An error of the stream, and a fault of a round, as they are told of that file.
    #[test]
    fn tells_its_name(rt: HostRuntime) -> Result<(), Fail> {
        let name = String::from_str(rt.alloc(), "/dev/zero")?;
        let input = Input::open(&rt, name)?;
        let error = input.told(Problem::Stream(Error::from(ErrorKind::UnexpectedEof)));
        let fault = input.in_round(Fault::Shape, 7);
        assert!(rt; matches!(error, Problem::File(..)));
        assert!(rt; matches!(fault, Problem::InRound(Fault::Shape, 7, _)));
        Ok(())
    }
}
