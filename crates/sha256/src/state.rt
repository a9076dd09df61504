// The eight words of a hash value, and of the working variables of a round, by the names that the standard has for them.
#[derive(Clone, Copy)]
pub struct State<W> {
    pub a: W,
    pub b: W,
    pub c: W,
    pub d: W,
    pub e: W,
    pub f: W,
    pub g: W,
    pub h: W,
}
