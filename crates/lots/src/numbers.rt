// Numbers drawn from bytes: four bytes are a value, and a value at or above the limit is passed over.
ghost use Rattle.std.specs.Prelude.{◌≡◌, ◌^◌, ◌<◌, IfOk};
ghost use Rattle.drawing.specs.Drawing.{limit};
ghost use Rattle.tasks.specs.Reading.{gives};
ghost use Rattle.lots.specs.Lots.{number_in};
ghost use Rattle.lots.specs.Views.{had_of, EndOf};

use super::had::Had;
use tasks::Fault;

// The greatest multiple of a number that is at most 2^32.
fn limit_for(below: u32) -> u64
    requires { 0 < below }
    ensures { result ≡ limit (2 ^ 32) below }
{
    let values = 4294967296u64;
    values - values % (below as u64)
}

// A number below `below`.
pub(crate) fn draw_number(below: u32, bytes: &[u8]) -> Result<Had<'_, u32>, Fault>
    requires { 0 < below }
    ensures number { gives (had_of (λ n. n)) result ≡ number_in below bytes.now }
    ensures below { IfOk result (λ h. h.what < below) }
    ensures left { IfOk result (λ h. EndOf bytes.now h.left.now) }
{
    let limit = limit_for(below);
    let mut rest = bytes;
    while let Some((four, left)) = rest.split_first_chunk::<4>() {
        let value = u32::from_be_bytes(*four);
        rest = left;
        if (value as u64) < limit {
            return Ok(Had {
                what: value % below,
                left,
            });
        }
    }
    Err(Fault::DrawnOut)
}
