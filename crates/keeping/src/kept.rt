// A file that is written as the showing goes on. What is read is `Input` of `command`: one struct for both would share its two fields and no more.
ghost use Rattle.std.specs.Prelude.{◌≡◌, [], IfOk, IfErr, IfSome, OnOk, is_ok};
ghost use Rattle.std.specs.Io.Buffered.{writer_contents, writer_buffer};
ghost use Rattle.std.specs.Io.KnownBytes.{Appends};
ghost use Rattle.book.specs.Model.{text_of};
ghost use Rattle.keeping.specs.Kept.{name_of, bytes_of, waiting_in, IsWritten};

use super::hex::Hex;
use book::RoundWords;
use command::Problem;
use std::fmt::Display;
use std::fs::File;
use std::io;
use std::io::{BufWriter, Write};

// The writer is a file. A parameter, since of a file's bytes no contract knows, and of another writer's it does.
#[derive(Drop)]
pub struct Kept<W: Write + Drop = File> {
    file: BufWriter<W>,
    name: String,
}

// The words of a round in their order, and nothing else, to the end.
#[tactic(auto, using(crate::proofs::Writes::appends_more, crate::proofs::Writes::appends_kept))]
fn write_words<W: Write + Drop>(to: &mut BufWriter<W>, round: RoundWords) -> io::Result<()>
    ensures added { OnOk result (Appends (writer_contents W.contents to.old) (writer_contents W.contents to.new) (text_of round.entry)) }
    ensures flushed { OnOk result (writer_buffer to.new ≡ []) }
{
    to.write_all(round.boxes)?;
    to.write_all(round.ask)?;
    to.write_all(round.opened)?;
    to.write_all(round.end)?;
    to.flush()
}

// A line of the book.
fn write_line<W: Write + Drop, D: Display + Drop>(
    to: &mut BufWriter<W>,
    name: D,
    digest: [u8; 32],
) -> io::Result<()>
    ensures { OnOk result (writer_buffer to.new ≡ []) }
{
    let digest = Hex { digest };
    writeln!(to, "{name} {digest}")?;
    to.flush()
}

impl Kept {
    // The file with this name, emptied; none where there is no name.
    pub fn create(rt: &HostRuntime, name: Option<String>) -> Result<Option<Kept>, Problem>
        ensures names { IfOk result (λ kept. name_of kept ≡ name) }
        ensures told { IfErr result (λ p. IfSome name (λ name. IsWritten name p)) }
    {
        let Some(name) = name else {
            return Ok(None);
        };
        // The name goes into the error or on: a closure for `map_err` would take it.
        match File::create(rt, name.as_str()) {
            Ok(file) => Ok(Some(Kept {
                file: BufWriter::new(rt.alloc(), file).map_err(|_| Problem::Memory)?,
                name,
            })),
            Err(error) => Err(Problem::Written(name, error)),
        }
    }
}

impl<W: Write + Drop> Kept<W> {
    // The words of a closed round.
    pub fn words(&mut self, round: RoundWords) -> Result<(), Problem>
        ensures added { OnOk result (Appends (bytes_of W.contents self.old) (bytes_of W.contents self.new) (text_of round.entry)) }
        ensures flushed { OnOk result (waiting_in self.new ≡ []) }
        ensures name { self.new.name ≡ self.old.name }
    {
        let result = write_words(&mut self.file, round);
        self.told(result)
    }

    // A line of the book.
    pub fn line<D: Display + Drop>(&mut self, name: D, digest: [u8; 32]) -> Result<(), Problem>
        ensures flushed { OnOk result (waiting_in self.new ≡ []) }
        ensures name { self.new.name ≡ self.old.name }
    {
        let result = write_line(&mut self.file, name, digest);
        self.told(result)
    }

    fn told(&self, res: io::Result<()>) -> Result<(), Problem>
        ensures { is_ok result ≡ is_ok res }
    {
        res.try_map_err(|error| Ok(Problem::Written(self.name.clone()?, error)))
    }
}
