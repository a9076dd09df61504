// The Task that comes is to be the asker's own.
ghost use Rattle.std.specs.Prelude.{◌≡◌};
ghost use Rattle.sha256.specs.Sha256.{sha256};
ghost use Rattle.tasks.specs.Model.{task_of};
ghost use Rattle.tasks.specs.Reading.{looks, and_then};
ghost use Rattle.words.specs.Reading.{read_word};
ghost use Rattle.round.specs.Over.{leads};
ghost use Rattle.asking.specs.Asking.{on_task, meet};
ghost use Rattle.asking.specs.Model.{awaiting_of, ready_of};

use super::awaiting::Awaiting;
use super::ready::Ready;
use super::turning::turn;
use round::{Outcome, Over};
use tasks::Fault;
use words::{Word, read_word};

impl Awaiting {
    // Tasks are compared by their bytes.
    fn test_task(&self, word: &[u8]) -> Result<(), Fault>
        ensures { looks result ≡ and_then (read_word (task_of self.now.task) word.now) (on_task self.now.own.items) }
    {
        let Word::Task(bytes) = read_word(&self.task, word)? else {
            return Err(Fault::NotAwaited);
        };
        if bytes != self.own.as_slice() {
            return Err(Fault::OtherTask);
        }
        Ok(())
    }

    // The first round, or the end after none; another word than the asker's own Task ends all.
    pub fn meet(self, word: &[u8]) -> Result<Ready, Over>
        ensures { leads ready_of result ≡ meet sha256 (awaiting_of self) word.now }
    {
        let digest = book::start(&self.own);
        self.test_task(word).map_err(|fault| Over {
            outcome: Outcome::TaskFault(fault),
            digest,
        })?;
        turn(self.task, self.rounds, 0, digest)
    }
}
