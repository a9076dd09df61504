// Orders made from bytes, and what stands at their places.
ghost use Rattle.std.specs.Prelude.{◌≡◌, ◌≤◌, length, nat_lt};
ghost use Rattle.std.specs.Option.{option_map};
ghost use Rattle.std.specs.Bool.{then_some};
ghost use Rattle.paths.specs.Plan.{at};
ghost use Rattle.paths.specs.Order.{is_order, none_twice, order_of};

use super::order::Order;

impl Order {
    // The order that these bytes are, if they are one. No `TryFrom`, since where they are none there is no more to tell.
    pub fn new(bytes: &[u8]) -> Option<Order>
        ensures { option_map order_of result ≡ then_some (is_order bytes.now) bytes.now }
    {
        let count = bytes.len();
        if count < 1 || count > 64 || !is_row(bytes) {
            return None;
        }
        let mut numbers = [0; 64];
        numbers[..count].copy_from_slice(bytes);
        Some(Order {
            numbers,
            count: count as u8,
        })
    }

    // The numbers in their order.
    pub fn as_slice(&self) -> &[u8]
        ensures numbers { result.now ≡ order_of self.now }
        ensures count { length result.now ≡ self.now.count }
    {
        &self.numbers[..self.count as usize]
    }

    // The number of a path, if the path is there.
    pub fn number(&self, path: u8) -> Option<u8>
        ensures { result ≡ then_some (nat_lt path (length (order_of self.now))) (at (order_of self.now) path) }
    {
        self.as_slice().get(path as usize).copied()
    }
}

// Is each of these bytes below their number, and none there twice?
fn is_row(bytes: &[u8]) -> bool
    requires { length bytes.now ≤ 64 }
    ensures { result ≡ none_twice (length bytes.now) bytes.now }
{
    let mut met = [false; 64];
    // from the last, since the definition says of each byte that it is not among those after it
    for byte in bytes.iter().rev() {
        let number = *byte as usize;
        if number >= bytes.len() || met[number] {
            return false;
        }
        met[number] = true;
    }
    true
}
