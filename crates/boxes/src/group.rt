// A group of up to eight trains, whose boxes are closed at once.
ghost use Rattle.std.specs.Prelude.{◌≡◌, ℕ, ◌+◌, ◌*◌, ◌^◌, ◌<◌, ◌≤◌, [], ◌++◌, length, take, drop, slice_index, slice_index_or};
ghost use Rattle.sha256.specs.Sha256.{sha256};
ghost use Rattle.boxes.specs.Box.{box_text, boxes_of};

use super::closing::text;
use lanes::digests;

// The trains from `first` on, one for each number; the chances stand one after the other, side by side with the numbers, as C hands them in.
#[derive(Clone, Copy)]
pub(super) struct Group<'a> {
    pub round: u32,
    pub first: usize,
    pub numbers: &'a [u8],
    pub chances: &'a [u8],
    ghost few: { length numbers.now ≤ 8 },
    ghost trains: { first + length numbers.now ≤ 2 ^ 16 },
    ghost room: { 32 * length numbers.now ≤ length chances.now },
}

impl Group<'_> {
    fn texts(&self) -> [[u8; 39]; 8]
        ensures { (j : ℕ) → j < length self.now.numbers.now → slice_index_or result j [] ≡ box_text self.now.round (self.now.first + j) (slice_index self.now.numbers.now j) (take 32 (drop (32 * j) self.now.chances.now)) }
    {
        let (chances, _) = self.chances.as_chunks();
        let mut all = [[0; 39]; 8];
        // by place: with `array::from_fn` it was tried, and by the benchmark 4 % fewer boxes are closed in a second, on x86-64-v3 5 to 11 %; and of what was
        // written through a `zip` of `iter_mut` the library says nothing
        for (j, number) in self.numbers.iter().enumerate() {
            all[j] = text(self.round, (self.first + j) as u16, *number, &chances[j]);
        }
        all
    }

    // Writes the boxes to the front.
    pub(super) fn write_boxes(&self, out: &mut [u8])
        requires { 32 * length self.now.numbers.now ≤ length out.old }
        ensures { out.new ≡ boxes_of sha256 self.now.round self.now.first self.now.numbers.now self.now.chances.now ++ drop (32 * length self.now.numbers.now) out.old }
    {
        let all = digests(&self.texts());
        let boxes = all[..self.numbers.len()].as_flattened();
        out[..boxes.len()].copy_from_slice(boxes);
    }
}
