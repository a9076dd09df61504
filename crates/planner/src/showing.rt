// A showing, as the planner goes through it.
ghost use Rattle.std.specs.Prelude.{◌≡◌};

use command::Problem;
use keeping::{Showing, Side, Stop, run};
use planning::{Begun, Heard, Ready};
use round::Over;

#[derive(Drop)]
pub struct Planner<'a> {
    pub showing: Showing<'a>,
}

impl Planner<'_> {
    // The Task, and all rounds, to the end.
    pub fn all_rounds(&mut self, begun: Begun) -> Result<Over, Problem> {
        let Begun { word, next } = begun;
        self.showing.records.begin(Self::digest_of(&next))?;
        self.showing.line.send(word.as_slice())?;
        run(self, next)
    }

    fn close_round(&mut self, heard: Heard) -> Result<Ready, Stop> {
        let round = heard.opened.closed.ready.round;
        self.showing.records.words(heard.words())?;
        let next = heard.settle();
        self.showing.close_round(round, Self::digest_of(&next))?;
        Ok(next?)
    }
}

impl Side for Planner<'_> {
    type Ready = Ready;

    ghost so_far = { λ ready. ready.digest };

    // Boxes out, Ask in, Opened out, End in.
    fn round(&mut self, ready: Ready) -> Result<Ready, Stop> {
        self.showing.drawn.lot(&ready.task)?;
        let closed = ready.close(self.showing.drawn.bytes())?;
        self.showing.line.send(closed.ready.boxes.as_slice())?;
        let word = self.showing.line.hear(&closed.ready.task)?;
        let opened = closed.answer(word.as_slice())?;
        self.showing.line.send(&opened.opened)?;
        let word = self.showing.line.hear(&opened.closed.ready.task)?;
        let heard = opened.hear(word.as_slice())?;
        self.close_round(heard)
    }

    fn digest(ready: &Ready) -> [u8; 32]
        ensures { result ≡ ready.now.digest }
    {
        ready.digest
    }
}
