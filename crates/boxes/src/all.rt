// The boxes of all trains, eight at a time.
ghost use Rattle.std.specs.Prelude.{◌≡◌, ◌*◌, ◌^◌, ◌≤◌, ◌++◌, length, drop, if◌then◌else◌};
ghost use Rattle.sha256.specs.Sha256.{sha256};
ghost use Rattle.boxes.specs.Box.{boxes_of, closable, Laid};

use super::group::Group;

// Chunks of `out` that are lent by `chunks_mut` are left out: the library says nothing of what a slice holds after them.
fn write_all(round: u32, numbers: &[u8], chances: &[u8], out: &mut [u8])
    requires trains { length numbers.now ≤ 2 ^ 16 }
    requires chances { length chances.now ≡ 32 * length numbers.now }
    requires room { 32 * length numbers.now ≤ length out.old }
    ensures { out.new ≡ boxes_of sha256 round 0 numbers.now chances.now ++ drop (32 * length numbers.now) out.old }
{
    for (i, numbers) in numbers.chunks(8).enumerate() {
        let first = 8 * i;
        let group = Group {
            round,
            first,
            numbers,
            chances: &chances[32 * first..],
        };
        group.write_boxes(&mut out[32 * first..]);
    }
}

fn fits(trains: usize, chances: usize, room: usize) -> bool
    ensures { result ≡ closable trains chances room }
{
    trains <= 65536 && chances == 32 * trains && room >= 32 * trains
}

// Writes the boxes of the trains 0, 1, .. to the front of `out`, one for each number; the chances stand one after the other. Where it answers false, which
// is where the lengths don't fit or there are more than 65536 numbers, `out` stays as it is. A bool, since there is nothing to hand on, and C takes it as it is.
// The four are passed one by one, and chances and boxes as flat bytes, since C calls this.
#[tactic(auto, using(crate::proofs::Boxes::laid_sha256))]
pub fn close_all(round: u32, numbers: &[u8], chances: &[u8], out: &mut [u8]) -> bool
    ensures answer { result ≡ closable (length numbers.now) (length chances.now) (length out.old) }
    ensures boxes { out.new ≡ (if result then boxes_of sha256 round 0 numbers.now chances.now ++ drop (32 * length numbers.now) out.old else out.old) }
    ensures laid { Laid sha256 }
{
    if !fits(numbers.len(), chances.len(), out.len()) {
        return false;
    }
    write_all(round, numbers, chances, out);
    true
}
