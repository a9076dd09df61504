// Orders drawn from bytes: the row of all paths, with exchanges from the last place down.
ghost use Rattle.std.specs.Prelude.{◌≡◌, ◌≤◌, length, IfOk};
ghost use Rattle.paths.specs.Cheat.{up_to};
ghost use Rattle.paths.specs.Order.{order_of};
ghost use Rattle.tasks.specs.Reading.{gives};
ghost use Rattle.lots.specs.Lots.{exchanged_in, order_in};
ghost use Rattle.lots.specs.Views.{had_of, EndOf};

use super::had::Had;
use super::numbers::draw_number;
use paths::Order;
use tasks::Fault;

// Writes 0, 1, 2 and so on.
fn count_up(row: &mut [u8])
    requires { length row.old ≤ 64 }
    ensures { row.new ≡ up_to (length row.old) }
{
    for (i, place) in row.iter_mut().enumerate() {
        *place = i as u8;
    }
}

// For each place from the last down to place 1 a number up to that place is drawn, and what stands at the two places is exchanged. Answers the bytes left
// over.
fn draw_exchanges<'a>(row: &mut [u8], bytes: &'a [u8]) -> Result<&'a [u8], Fault>
    requires { length row.old ≤ 64 }
    ensures row { gives (λ left. record { what = row.new; left = left.now }) result ≡ exchanged_in (length row.old) row.old bytes.now }
    ensures left { IfOk result (λ left. EndOf bytes.now left.now) }
{
    let mut rest = bytes;
    // by place, since the place is also what the number is drawn for
    for i in (1..row.len()).rev() {
        let number = draw_number(i as u32 + 1, rest)?;
        row.swap(i, number.what as usize);
        rest = number.left;
    }
    Ok(rest)
}

// An order of so many paths.
pub(crate) fn draw_order(paths: u8, bytes: &[u8]) -> Result<Had<'_, Order>, Fault>
    requires some_path { 1 ≤ paths }
    requires few_paths { paths ≤ 64 }
    ensures order { gives (had_of order_of) result ≡ order_in paths bytes.now }
    ensures left { IfOk result (λ h. EndOf bytes.now h.left.now) }
{
    // a front of an array, since an order takes no memory of the heap
    let mut numbers = [0; 64];
    let row = &mut numbers[0..paths as usize];
    count_up(row);
    let left = draw_exchanges(row, bytes)?;
    Ok(Had {
        what: Order::new(row).unwrap(),
        left,
    })
}
