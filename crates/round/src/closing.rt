// The Boxes word that a plan and a lot give.
ghost use Rattle.std.specs.Prelude.{◌≡◌, length, take};
ghost use Rattle.sha256.specs.Sha256.{sha256};
ghost use Rattle.paths.specs.Order.{order_of};
ghost use Rattle.paths.specs.Plan.{at};
ghost use Rattle.tasks.specs.Model.{plan_of};
ghost use Rattle.lots.specs.Views.{lot_of};
ghost use Rattle.words.specs.Model.{wrote_to};
ghost use Rattle.round.specs.Round.{held, write_boxes};

use boxes::close_all;
use lots::Lot;
use paths::Order;
use tasks::Plan;
use words::boxes_head;

// The number that the order gives a path, and 0 where the path isn't there.
pub(super) fn number_of(order: &Order, path: u8) -> u8
    ensures { result ≡ at (order_of order.now) path }
{
    order.number(path).unwrap_or(0)
}

// For each train of the plan the number in its box; those after them mean nothing. An array with a count beside it, since a round takes no memory of the heap.
fn numbers(plan: &Plan, order: &Order) -> [u8; 1024]
    ensures { take (length (plan_of plan.now)) result ≡ held (plan_of plan.now) (order_of order.now) }
{
    let mut numbers = [0; 1024];
    // by place: with `numbers.iter_mut().zip(..)` it was tried, and the library says nothing of an array written through a zip of `iter_mut`
    for (train, path) in plan.paths.iter().enumerate() {
        numbers[train] = number_of(order, *path);
    }
    numbers
}

// Plan, round and lot one by one, as `opened_word` has them and nothing else.
// Writes the Boxes of the round to the front of `out`: a box for each train, with the number that the order gives its path. Where the chances are not 32 bytes
// for each train, or there is no room, `out` stays as it is.
pub fn write_boxes(plan: &Plan, round: u32, lot: &Lot, out: &mut [u8]) -> Option<usize>
    ensures { wrote_to result out.new ≡ write_boxes sha256 round (plan_of plan.now) (lot_of lot.now) out.old }
{
    let count = plan.paths.len();
    let size = 7 + 32 * count;
    if lot.chances.len() + 7 != size || out.len() < size {
        return None;
    }
    let numbers = numbers(plan, &lot.order);
    out[..7].copy_from_slice(&boxes_head(round, count as u16));
    close_all(round, &numbers[..count], lot.chances, &mut out[7..]);
    Some(size)
}
