// The planner's lot of a round.
ghost use Rattle.std.specs.Prelude.{◌≡◌, ◌*◌, length, IfOk};
ghost use Rattle.drawing.specs.Uniform.{EvenOrders, EvenShowings};
ghost use Rattle.tasks.specs.Model.{task_of};
ghost use Rattle.tasks.specs.Reading.{gives};
ghost use Rattle.lots.specs.Lots.{chances_in, lot_in};
ghost use Rattle.lots.specs.Laws.{LotsAreCoins, LotsInTurn, LotsHad, Follows};
ghost use Rattle.lots.specs.Views.{had_of, lot_of, EndOf};
ghost use Rattle.paths.specs.Order.{order_of};

use super::had::Had;
use super::orders::draw_order;
use paths::Order;
use tasks::{Fault, Task};

// An order of the paths, and the chances, 32 bytes for each train. They are flat bytes, as they were drawn, and as `close_all` of `boxes` takes them, which
// C calls too.
#[derive(Clone, Copy)]
pub struct Lot<'a> {
    pub order: Order,
    pub chances: &'a [u8],
}

// The lot with this order: the chances of so many trains are the next bytes.
fn chances_in(trains: u16, order: Order, bytes: &[u8]) -> Result<Had<'_, Lot<'_>>, Fault>
    ensures lot { gives (had_of lot_of) result ≡ chances_in trains (order_of order) bytes.now }
    ensures chances { IfOk result (λ h. length h.what.chances.now ≡ 32 * trains) }
    ensures left { IfOk result (λ h. EndOf bytes.now h.left.now) }
{
    let (chances, left) = bytes
        .split_at_checked(32 * trains as usize)
        .ok_or(Fault::DrawnOut)?;
    Ok(Had {
        what: Lot { order, chances },
        left,
    })
}

// The lot of a round, or fault 11 where the bytes are too few for the order, with all values that are passed over, and for every chance. Lots are, as coins,
// what the promises of uniformity speak of, round by round: each order, and each row of coins of a showing, comes from equally many rows of values.
#[tactic(auto, using(crate::proofs::Told::lot_laws))]
pub fn draw_lot<'a>(task: &Task, bytes: &'a [u8]) -> Result<Had<'a, Lot<'a>>, Fault>
    ensures lot { gives (had_of lot_of) result ≡ lot_in (task_of task.now) bytes.now }
    ensures chances { IfOk result (λ h. length h.what.chances.now ≡ 32 * task.now.trains) }
    ensures left { IfOk result (λ h. EndOf bytes.now h.left.now) }
    ensures coins { LotsAreCoins }
    ensures in_turn { LotsInTurn }
    ensures orders { EvenOrders }
    ensures showings { EvenShowings }
    ensures had { LotsHad }
    ensures follows { Follows (lot_in (task_of task.now)) }
{
    let order = draw_order(task.paths, bytes)?;
    chances_in(task.trains, order.what, order.left)
}
