// The words of the command line, taken one option after the other.
#![tactic(auto)]

ghost use Rattle.std.specs.Prelude.{◌≡◌, false, drop, IfErr};
ghost use Rattle.std.specs.Result.{result_ok};
ghost use Rattle.arguments.specs.Words.{Stands, Taken, Struck, ending};

use thiserror::Error;

// A word that is wrong, or an option that is missing or has no value.
#[derive(Debug, Drop, Error)]
pub enum Wrong {
    #[error("wrong argument: {0}")]
    Word(String),
    #[error("missing argument: {0}")]
    Missing(&'static str),
}

// The words after the program's name that were not taken yet.
#[derive(Drop)]
pub struct Arguments {
    words: Vec<String>,
}

impl Arguments {
    // Of the whole command line, which begins with the program's name.
    pub fn new(mut words: Vec<String>) -> Arguments
        ensures { result.words.items ≡ drop 1 words.items }
    {
        if !words.is_empty() {
            let _ = words.remove(0);
        }
        Arguments { words }
    }

    // The first place at which the name stands.
    fn place_of(&self, name: &str) -> Option<usize>
        ensures { Stands name.now self.now.words.items result }
    {
        self.words.iter().position(|word| word.as_str() == name)
    }

    // Takes an option and the word after it. Where the option or that word isn't there, nothing changes.
    pub fn take(&mut self, name: &str) -> Option<String>
        ensures { Taken name.now self.old.words.items self.new.words.items result }
    {
        let place = self.place_of(name)?;
        if self.words.len() - place < 2 {
            return None;
        }
        let _ = self.words.remove(place);
        Some(self.words.remove(place))
    }

    // The same of an option that must be there.
    pub fn need(&mut self, name: &'static str) -> Result<String, Wrong>
        ensures taken { Taken name.now self.old.words.items self.new.words.items (result_ok result) }
        ensures missing { IfErr result (λ wrong. wrong ≡ Wrong.Missing name.entry) }
    {
        self.take(name).ok_or(Wrong::Missing(name))
    }

    // Takes a word that stands alone, and says whether it was there.
    pub fn flag(&mut self, name: &str) -> bool
        ensures struck { Struck name.now self.old.words.items self.new.words.items result }
        ensures none { result ≡ false → self.new.words.items ≡ self.old.words.items }
    {
        let Some(place) = self.place_of(name) else {
            return false;
        };
        let _ = self.words.remove(place);
        true
    }

    // A word that nothing took is wrong.
    pub fn end(mut self) -> Result<(), Wrong>
        ensures { result ≡ ending self.words.items }
    {
        if self.words.is_empty() {
            return Ok(());
        }
        Err(Wrong::Word(self.words.remove(0)))
    }
}
