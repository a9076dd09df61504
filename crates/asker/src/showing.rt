// A showing, as the asker goes through it.
ghost use Rattle.std.specs.Prelude.{◌≡◌};

use asking::{Awaiting, Ready, Tested};
use command::Problem;
use keeping::{Showing, Side, Stop, run};
use round::Over;

#[derive(Drop)]
pub struct Asker<'a> {
    pub showing: Showing<'a>,
    // What went wrong once an answer was refused. It is told after the refusal.
    pub late: Result<(), Problem>,
}

impl Asker<'_> {
    // The Task, and all rounds, to the end.
    pub fn all_rounds(&mut self, awaiting: Awaiting) -> Result<Over, Problem> {
        let word = self.showing.line.hear(&awaiting.task)?;
        let first = awaiting.meet(word.as_slice());
        self.showing.records.begin(Self::digest_of(&first))?;
        run(self, first)
    }

    // The End is sent first, whatever the records do.
    fn close_round(&mut self, tested: Tested) -> Result<Ready, Stop> {
        let sent = self.showing.line.send(&tested.end);
        if tested.test.is_ok() {
            sent?;
            let (next, kept) = self.keep(tested);
            kept?;
            return Ok(next?);
        }
        let (next, kept) = self.keep(tested);
        self.late = kept.and(sent);
        Ok(next?)
    }

    // The round is closed, and how its records went.
    fn keep(&mut self, tested: Tested) -> (Result<Ready, Over>, Result<(), Problem>) {
        let round = tested.asked.drawn.ready.round;
        let words = self.showing.records.words(tested.words());
        let next = tested.settle();
        let digest = Self::digest_of(&next);
        let kept = words.and_then(|()| self.showing.close_round(round, digest));
        (next, kept)
    }
}

impl Side for Asker<'_> {
    type Ready = Ready;

    ghost so_far = { λ ready. ready.digest };

    // Boxes in, Ask out, Opened in, End out.
    fn round(&mut self, ready: Ready) -> Result<Ready, Stop> {
        self.showing.drawn.question(&ready.task)?;
        let drawn = ready.draw(self.showing.drawn.bytes())?;
        let word = self.showing.line.hear(&drawn.ready.task)?;
        let asked = drawn.question(word)?;
        self.showing.line.send(&asked.ask)?;
        let word = self.showing.line.hear(&asked.drawn.ready.task)?;
        self.close_round(asked.test(word.as_slice()))
    }

    fn digest(ready: &Ready) -> [u8; 32]
        ensures { result ≡ ready.now.digest }
    {
        ready.digest
    }
}
