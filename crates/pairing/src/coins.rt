// Coins of the first plan made into coins of the second that show the same.
ghost use Rattle.std.specs.Prelude.{◌≡◌, ◌+◌, ◌*◌, OnOk};
ghost use Rattle.paths.specs.Order.{order_of};
ghost use Rattle.tasks.specs.Reading.{gives};
ghost use Rattle.pairing.specs.Coins.{order_for, order_in, coin_for, left_by, Goes, Promised};
ghost use Rattle.pairing.specs.Plans.{both_of};

use super::plans::Plans;
use fitting::pair_at;
use paths::Order;
use tasks::Fault;

impl Plans {
    // The bytes of a coin: one for each path, and 32 for each train.
    pub fn coin_length(&self) -> usize
        ensures { result ≡ self.now.task.paths + 32 * self.now.task.trains }
    {
        self.task.paths as usize + 32 * self.task.trains as usize
    }

    // The order of the second plan's coin that goes with a coin of the first plan, where the pair with this number is asked for.
    #[tactic(auto, using(crate::proofs::Promises::promised))]
    pub fn pair_order(&self, question: u16, order: &Order) -> Result<Order, Fault>
        ensures answer { gives order_of result ≡ order_for (both_of self.now) question (order_of order.now) }
        ensures promise { Promised (both_of self.now) }
    {
        let pair = pair_at(&self.task, question)?;
        if order.as_slice().len() != self.task.paths as usize {
            return Err(Fault::BadNumber);
        }
        order.paired(self.partners(pair)).ok_or(Fault::BadNumber)
    }

    // Makes the bytes of a coin of the first plan, an order and the chances, those of the second plan's coin that goes with it, where the pair with this
    // number is asked for. Bytes that are refused stay as they are.
    pub fn pair_coin(&self, question: u16, coin: &mut [u8]) -> Result<(), Fault>
        ensures answer { gives (λ _. coin.new) result ≡ coin_for (both_of self.now) question coin.old }
        ensures left { coin.new ≡ left_by (coin_for (both_of self.now) question coin.old) coin.old }
        ensures coin { OnOk result (Goes (both_of self.now) question coin.old coin.new) }
        ensures promise { Promised (both_of self.now) }
    {
        let order = self.order_in(question, coin)?;
        let numbers = order.as_slice();
        coin[..numbers.len()].copy_from_slice(numbers);
        Ok(())
    }

    fn order_in(&self, question: u16, coin: &[u8]) -> Result<Order, Fault>
        ensures { gives order_of result ≡ order_in (both_of self.now) question coin.now }
    {
        if coin.len() != self.coin_length() {
            return Err(Fault::Shape);
        }
        // looked up here too, since a pair that isn't there is told before bytes that are no order
        pair_at(&self.task, question)?;
        let order = Order::new(&coin[..self.task.paths as usize]).ok_or(Fault::BadNumber)?;
        self.pair_order(question, &order)
    }
}
