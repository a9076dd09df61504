// What was drawn from bytes, and the bytes left over. That these are the end of the bytes is said by each function that draws, since no field can name the
// bytes that it was given.
#[derive(Clone, Copy)]
pub struct Had<'a, T> {
    pub what: T,
    pub left: &'a [u8],
}
