// The Opened word that a plan and a lot give for a pair.
ghost use Rattle.std.specs.Prelude.{◌≡◌, ℕ, ◌+◌, ◌*◌, ◌≤◌, List, length, nat_le};
ghost use Rattle.std.specs.Bool.{then_some};
ghost use Rattle.tasks.specs.Model.{task_of, plan_of};
ghost use Rattle.boxes.specs.Model.{opening_of};
ghost use Rattle.words.specs.Said.{opened};
ghost use Rattle.words.specs.Writing.{said_bytes};
ghost use Rattle.lots.specs.Views.{lot_of};
ghost use Rattle.round.specs.Laws.{OpensByLot};
ghost use Rattle.round.specs.Round.{part_of, opening_for, opened_bytes, Complete};

use super::closing::number_of;
use boxes::Opening;
use fitting::pair_at;
use lots::Lot;
use tasks::{Plan, Task, path_of};
use words::{Word, write_word};

// The 32 bytes of a train among those of all trains, if they are there.
pub(super) fn part_of(bytes: &[u8], train: u16) -> Option<[u8; 32]>
    ensures { result ≡ then_some (nat_le (32 * train + 32) (length bytes.now)) (part_of bytes.now train) }
{
    let (parts, _) = bytes.as_chunks();
    parts.get(train as usize).copied()
}

fn opening_for(plan: &Plan, lot: &Lot, train: u16) -> Opening
    requires { 32 * train + 32 ≤ length lot.now.chances.now }
    ensures { opening_of result ≡ opening_for (plan_of plan.now) (lot_of lot.now) train }
{
    Opening {
        train,
        number: number_of(&lot.order, path_of(plan, train)),
        chance: part_of(lot.chances, train).unwrap(),
    }
}

// The Opened as the writer of all words writes it.
fn written(round: u32, first: Opening, second: Opening) -> [u8; 75]
    ensures { result ≡ said_bytes (opened round (opening_of first) (opening_of second)) }
{
    let mut bytes = [0; 75];
    write_word(Word::Opened(round, first, second), &mut bytes);
    bytes
}

// The Opened of the round for the pair with this number. None where there is no such pair, or the chances are too few. It opens boxes of the coin that the lot is, and
// is accepted.
#[tactic(auto, using(crate::proofs::Complete::complete, crate::proofs::Opens::opens_by_lot))]
pub fn opened_word(task: &Task, plan: &Plan, round: u32, lot: &Lot, pair: u16) -> Option<[u8; 75]>
    ensures word { result ≡ opened_bytes (task_of task.now) round (plan_of plan.now) (lot_of lot.now) pair }
    ensures coin { OpensByLot }
    ensures complete { (hash : List ℕ → List ℕ) → ((text : List ℕ) → length (hash text) ≡ 32) → Complete hash }
{
    let asked = pair_at(task, pair).ok()?;
    if lot.chances.len() < 32 * task.trains as usize {
        return None;
    }
    let first = opening_for(plan, lot, asked.first);
    let second = opening_for(plan, lot, asked.second);
    Some(written(round, first, second))
}
