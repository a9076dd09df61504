// The words of a showing, read from their file one by one, and the drawn bytes with them.
use command::{Input, Problem};
use judging::{Judge, Verdict};
use keeping::Drawn;
use line::read_word_from;
use std::alloc::Global;
use tasks::Task;

#[derive(Drop)]
pub struct Hearing {
    heap: Global,
    words: Input,
    drawn: Option<Drawn>,
}

impl Hearing {
    pub fn new(heap: Global, words: Input, drawn: Option<Drawn>) -> Hearing {
        Hearing { heap, words, drawn }
    }

    // All words, to the end of the file or to where they can't be rounds.
    pub fn all(&mut self, mut judge: Judge, digest: [u8; 32]) -> Result<Verdict, Problem> {
        // A bound that no file reaches, since a loop here has to end.
        for _ in 0..u64::MAX {
            let word = self.word(&judge.task)?;
            if word.is_empty() {
                break;
            }
            self.fill(&judge)?;
            judge = match judge.take(word, self.drawn()) {
                Ok(judge) => judge,
                Err(verdict) => return Ok(verdict),
            };
        }
        Ok(judge.end(digest))
    }

    fn word(&mut self, task: &Task) -> Result<Vec<u8>, Problem> {
        let mut word = Vec::new(self.heap);
        read_word_from(&mut self.words.file, task, &mut word).map_err(|error| self
            .words
            .told(Problem::from(error)))?;
        Ok(word)
    }

    // Where no word of a round has come, the drawn bytes of the next round, if they are handed over.
    fn fill(&mut self, judge: &Judge) -> Result<(), Problem> {
        let Some(drawn) = &mut self.drawn else {
            return Ok(());
        };
        if !judge.awaits.is_between() {
            return Ok(());
        }
        drawn.lot(&judge.task)
    }

    fn drawn(&self) -> &[u8] {
        self.drawn.as_ref().map_or(&[][..], |drawn| drawn.bytes())
    }
}
