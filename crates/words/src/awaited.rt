// The words of a round, each where it is awaited: another word, or one of another round, is fault 6.
ghost use Rattle.std.specs.Prelude.{◌≡◌, IfOk};
ghost use Rattle.tasks.specs.Reading.{gives, looks};
ghost use Rattle.words.specs.Awaited.{on_boxes, on_ask, on_end};
ghost use Rattle.words.specs.Model.{said};
ghost use Rattle.words.specs.Said.{ask, end};

use super::word::Word;
use tasks::Fault;

// What was read is taken apart by `let .. else`, a form that the project keeps. Three methods, one for each kind, since each takes its own value out of its own case.
// Of an Opened there is none: its train is looked at before its round, and what isn't one may be an End.
impl Word<'_> {
    // The Boxes of this round.
    pub fn boxes_of(self, round: u32) -> Result<(), Fault>
        ensures { looks result ≡ on_boxes round (said self.entry) }
    {
        let Word::Boxes(said, _) = self else {
            return Err(Fault::NotAwaited);
        };
        if said != round {
            return Err(Fault::NotAwaited);
        }
        Ok(())
    }

    // The pair that the Ask of this round names.
    pub fn ask_of(self, round: u32) -> Result<u16, Fault>
        ensures answer { gives (λ i. i) result ≡ on_ask round (said self.entry) }
        ensures word { IfOk result (λ i. said self.entry ≡ ask round i) }
    {
        let Word::Ask(said, pair) = self else {
            return Err(Fault::NotAwaited);
        };
        if said != round {
            return Err(Fault::NotAwaited);
        }
        Ok(pair)
    }

    // What the End of this round says.
    pub fn end_of(self, round: u32) -> Result<bool, Fault>
        ensures answer { gives (λ c. c) result ≡ on_end round (said self.entry) }
        ensures word { IfOk result (λ c. said self.entry ≡ end round c) }
    {
        let Word::End(said, content) = self else {
            return Err(Fault::NotAwaited);
        };
        if said != round {
            return Err(Fault::NotAwaited);
        }
        Ok(content)
    }
}
