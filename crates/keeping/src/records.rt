// The book and the transcript, written round by round, so that they are whole however a showing ends.
ghost use Rattle.std.specs.Prelude.{◌≡◌, IfOk, OnOk};
ghost use Rattle.std.specs.Io.KnownBytes.{Appends};
ghost use Rattle.book.specs.Model.{text_of};
ghost use Rattle.keeping.specs.Kept.{name_of, bytes_in, IsFlushed};

use super::kept::Kept;
use book::RoundWords;
use command::Problem;
use std::fs::File;
use std::io::Write;

#[derive(Drop)]
pub struct Records<W: Write + Drop = File> {
    book: Option<Kept<W>>,
    words: Option<Kept<W>>,
}

impl Records {
    // The files with these names, where there are names.
    pub fn create(
        rt: &HostRuntime,
        book: Option<String>,
        words: Option<String>,
    ) -> Result<Records, Problem>
        ensures book { IfOk result (λ records. name_of records.book ≡ book) }
        ensures words { IfOk result (λ records. name_of records.words ≡ words) }
    {
        Ok(Records {
            book: Kept::create(rt, book)?,
            words: Kept::create(rt, words)?,
        })
    }
}

impl<W: Write + Drop> Records<W> {
    // The first line of the book.
    pub fn begin(&mut self, digest: [u8; 32]) -> Result<(), Problem>
        ensures flushed { OnOk result (IsFlushed self.new.book) }
        ensures book { name_of self.new.book ≡ name_of self.old.book }
        ensures words { self.new.words ≡ self.old.words }
    {
        let Some(book) = &mut self.book else {
            return Ok(());
        };
        book.line("task", digest)
    }

    // The words of a closed round.
    pub fn words(&mut self, round: RoundWords) -> Result<(), Problem>
        ensures added { OnOk result (Appends (bytes_in W.contents self.old.words) (bytes_in W.contents self.new.words) (text_of round.entry)) }
        ensures flushed { OnOk result (IsFlushed self.new.words) }
        ensures book { self.new.book ≡ self.old.book }
        ensures words { name_of self.new.words ≡ name_of self.old.words }
    {
        let Some(words) = &mut self.words else {
            return Ok(());
        };
        words.words(round)
    }

    // The book's line for a closed round.
    pub fn digest(&mut self, round: u32, digest: [u8; 32]) -> Result<(), Problem>
        ensures flushed { OnOk result (IsFlushed self.new.book) }
        ensures book { name_of self.new.book ≡ name_of self.old.book }
        ensures words { self.new.words ≡ self.old.words }
    {
        let Some(book) = &mut self.book else {
            return Ok(());
        };
        book.line(round, digest)
    }
}
