// A line on standard error that is rewritten: rounds done, of how many, and rounds a second.
ghost use Rattle.std.specs.Prelude.{◌≡◌, ◌*◌, ◌/◌, false, None, max};
ghost use Rattle.keeping.specs.Progress.{due};

use std::time::Instant;

// When the showing began, where the line was asked for; and the tenth of a second in which the line was written last.
#[derive(Drop)]
pub struct Progress {
    began: Option<Instant>,
    rounds: u32,
    written: Option<u128>,
}

impl Progress {
    pub fn new(rt: &HostRuntime, asked: bool, rounds: u32) -> Progress
        ensures unasked { asked ≡ false → result.began ≡ None }
        ensures rounds { result.rounds ≡ rounds }
        ensures written { result.written ≡ None }
    {
        let began = if asked { Instant::now(rt).ok() } else { None };
        Progress {
            began,
            rounds,
            written: None,
        }
    }

    // Writes the line again, at most ten times a second, and after the last round.
    pub fn done(&mut self, rt: &HostRuntime, rounds: u32)
        ensures kept { self.new.rounds ≡ self.old.rounds }
        ensures began { self.new.began ≡ self.old.began }
        ensures unasked { self.old.began ≡ None → self.new.written ≡ self.old.written }
    {
        let Some(began) = self.began else {
            return;
        };
        let Ok(time) = began.elapsed(rt) else {
            return;
        };
        let millis = time.as_millis();
        if !self.is_due(rounds, millis / 100) {
            return;
        }
        self.written = Some(millis / 100);
        let all = self.rounds;
        let rate = rate(rounds, millis);
        let _ = eprint!(rt; "\r{rounds} of {all} rounds, {rate} a second");
    }

    // In another tenth of a second than the last time, and after the last round.
    fn is_due(&self, rounds: u32, tenths: u128) -> bool
        ensures { result ≡ due self.now.written self.now.rounds rounds tenths }
    {
        self.written != Some(tenths) || rounds >= self.rounds
    }

    // Ends the line, where there is one.
    pub fn end(&self, rt: &HostRuntime) {
        if self.written.is_some() {
            let _ = eprintln!(rt; "");
        }
    }
}

// Rounds a second, of which the first millisecond counts as whole.
fn rate(rounds: u32, millis: u128) -> u128
    ensures { result ≡ rounds * 1000 / max millis 1 }
{
    rounds as u128 * 1000 / millis.max(1)
}
