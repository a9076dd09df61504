// The words as an enum, a case for each kind.
use boxes::Opening;

// Task, Plan and Boxes are parts of the bytes that were read: all of the Task, the paths of the Plan, and the digests behind the head of the Boxes. End is true
// where the asker is content.
#[derive(Clone, Copy, Debug, PartialEq, Eq)]
pub enum Word<'a> {
    Task(&'a [u8]),
    Plan(&'a [u8]),
    Boxes(u32, &'a [u8]),
    Ask(u32, u16),
    Opened(u32, Opening, Opening),
    End(u32, bool),
}
