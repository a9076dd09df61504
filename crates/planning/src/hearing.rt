// The words that the planner awaits.
ghost use Rattle.std.specs.Prelude.{◌≡◌, ◌<◌, length, IfOk, OnOk};
ghost use Rattle.tasks.specs.Model.{task_of};
ghost use Rattle.tasks.specs.Reading.{gives};
ghost use Rattle.planning.specs.Planning.{ask_in, end_in};

use super::ready::Ready;
use fitting::pair_at;
use tasks::Fault;
use words::read_word;

impl Ready {
    // The pair that the word asks for.
    pub(super) fn read_ask(&self, word: &[u8]) -> Result<u16, Fault>
        ensures answer { gives (λ i. i) result ≡ ask_in (task_of self.now.task) self.now.round word.now }
        ensures whole { IfOk result (λ i. (length word.now ≡ 7) × (i < length (task_of self.now.task).pairs)) }
    {
        let pair = read_word(&self.task, word)?.ask_of(self.round)?;
        pair_at(&self.task, pair)?;
        Ok(pair)
    }

    // What the word says of the round, as its End.
    pub(super) fn read_end(&self, word: &[u8]) -> Result<bool, Fault>
        ensures answer { gives (λ c. c) result ≡ end_in (task_of self.now.task) self.now.round word.now }
        ensures whole { OnOk result (length word.now ≡ 6) }
    {
        read_word(&self.task, word)?.end_of(self.round)
    }
}
