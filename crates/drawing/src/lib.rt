// How many rounds are enough, and that numbers, orders, questions and coins are drawn without favour: the definitions are in specs/, the proofs in proofs/. A promise is the contract
// of a function with no code, so that it is checked as any other.
#![tactic(auto)]

ghost use Rattle.std.specs.Prelude.{◌≡◌, ◌-◌, ◌*◌, ◌^◌, ◌<◌, ◌≤◌};
ghost use Rattle.drawing.specs.Enough.{Halves, Enough};
ghost use Rattle.drawing.specs.Uniform.{Remainders, Ways, Rows, Shares, InTurn, Bytes, Aims, AimsInTurn, Orders, Showings, EvenOrders, EvenQuestions, QuestionShares, EvenShowings};

// How many rounds a showing has where nobody says otherwise: 40 for each pair.
// A planner with no plan that fits passes each round in at most all ways to ask but one, so it passes them all with a chance of at most 1 in 2^40.
#[tactic(auto, using(crate::proofs::Rounds::enough, crate::proofs::Rounds::halves))]
pub fn default_rounds(pairs: u16) -> u32
    ensures is { result ≡ 40 * pairs }
    ensures most { pairs ≤ 4096 → result ≤ 163840 }
    ensures enough { 0 < pairs → 2 ^ 40 * (pairs - 1) ^ result ≤ pairs ^ result }
    ensures halves { Halves }
    ensures always { Enough }
{
    40 * u32::from(pairs)
}

// Each row of numbers comes from equally many rows of values: each remainder comes from equally many values that are not passed over; each row of
// numbers in range from the same known number of rows of values; whatever is tested passes in the same share of both, and of rows of bytes too.
pub fn rows_are_even()
    ensures remainders { Remainders (2 ^ 32) }
    ensures ways { Ways (2 ^ 32) }
    ensures rows { Rows (2 ^ 32) }
    ensures shares { Shares (2 ^ 32) }
    ensures bytes { Bytes }
{}

// Rows of numbers in range for an order correspond one to one with orders, and each order comes from equally many rows of values.
pub fn orders_are_even()
    ensures one_to_one { Orders }
    ensures even { EvenOrders }
{}

// Each row of questions comes from equally many rows of values; whatever is tested of questions passes in the same share of all rows of values that are
// enough for them as of all ways to ask.
pub fn questions_are_even()
    ensures even { EvenQuestions }
    ensures shares { QuestionShares }
{}

// Rows of numbers for all coins of a showing correspond one to one with rows of coins, and each row of coins comes from equally many rows of values.
pub fn showings_are_even()
    ensures one_to_one { Showings }
    ensures even { EvenShowings }
{}

// Rows of values that draw two rows of numbers are paired off one to one, with the values that are passed over or left over in their places; and to draw,
// or to aim, for a whole showing is to do it round by round.
pub fn values_are_aimed()
    ensures aims { Aims (2 ^ 32) }
    ensures draws_in_turn { InTurn (2 ^ 32) }
    ensures aims_in_turn { AimsInTurn (2 ^ 32) }
{}
