// Digests as text, in lines that are formatted anyway. By hand: `hex::encode_to_slice` would fill a buffer, which then had to be read as a text, and both may fail.
use std::fmt;

// A digest, written as 64 digits.
#[derive(Clone, Copy)]
pub struct Hex {
    pub digest: [u8; 32],
}

impl fmt::Display for Hex {
    fn fmt<W: fmt::Write>(&self, f: &mut fmt::Formatter<W>) -> fmt::Result {
        for byte in self.digest {
            write!(f, "{byte:02x}")?;
        }
        Ok(())
    }
}
