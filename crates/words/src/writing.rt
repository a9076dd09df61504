// Words written into memory that is lent.
ghost use Rattle.std.specs.Prelude.{◌≡◌, ◌+◌, ◌≤◌, ◌∷◌, ◌++◌, length, drop};
ghost use Rattle.boxes.specs.Model.{opening_of};
ghost use Rattle.tasks.specs.Kind.{kind_byte};
ghost use Rattle.tasks.specs.Writing.{word_bytes};
ghost use Rattle.words.specs.Model.{said, wrote_to};
ghost use Rattle.words.specs.Said.{plan, boxes, ask, opened, end};
ghost use Rattle.words.specs.Writing.{long_bytes, boxes_head, opening_bytes, said_bytes, write};

use super::word::Word;
use boxes::Opening;
use tasks::Kind;

// Puts bytes to the front of memory, whose rest stays as it is. A function, so that `put_both` can lend it the free end: what is written through a free end that is
// lent to no function, as by `let free = &mut out[n..]`, is not known.
fn put(bytes: &[u8], out: &mut [u8])
    requires { length bytes.now ≤ length out.old }
    ensures { out.new ≡ bytes.now ++ drop (length bytes.now) out.old }
{
    out[..bytes.len()].copy_from_slice(bytes);
}

// Two parts put one behind the other, the second into the free end.
fn put_both(head: &[u8], rest: &[u8], out: &mut [u8])
    requires { length head.now + length rest.now ≤ length out.old }
    ensures { out.new ≡ (head.now ++ rest.now) ++ drop (length head.now + length rest.now) out.old }
{
    put(head, out);
    put(rest, &mut out[head.len()..]);
}

// A word of two parts, where there is room for both.
fn write_both(head: &[u8], rest: &[u8], out: &mut [u8]) -> Option<usize>
    ensures { wrote_to result out.new ≡ write (head.now ++ rest.now) out.old }
{
    if head.len() > out.len() || rest.len() > out.len() - head.len() {
        return None;
    }
    put_both(head, rest, out);
    Some(head.len() + rest.len())
}

// A count as one of two bytes; of a larger one what is above them is left out, as no task has so many trains.
fn low_word(count: usize) -> u16
    ensures { word_bytes result ≡ word_bytes count }
{
    (count % 65536) as u16
}

fn write_plan(paths: &[u8], out: &mut [u8]) -> Option<usize>
    ensures { wrote_to result out.new ≡ write (said_bytes (plan paths.now)) out.old }
{
    let [high, low] = low_word(paths.len()).to_be_bytes();
    write_both(&[Kind::Plan.byte(), high, low], paths, out)
}

fn write_boxes(round: u32, digests: &[u8], out: &mut [u8]) -> Option<usize>
    ensures { wrote_to result out.new ≡ write (said_bytes (boxes round digests.now)) out.old }
{
    let head = boxes_head(round, low_word(digests.len() / 32));
    write_both(&head, digests, out)
}

// The kind of a word and the number of its round.
fn front(kind: Kind, round: u32) -> [u8; 5]
    ensures { result ≡ kind_byte kind ∷ long_bytes round }
{
    let [a, b, c, d] = round.to_be_bytes();
    [kind.byte(), a, b, c, d]
}

// The same, and a number of two bytes.
fn numbered(kind: Kind, round: u32, number: u16) -> [u8; 7]
    ensures { result ≡ (kind_byte kind ∷ long_bytes round) ++ word_bytes number }
{
    let [kind, a, b, c, d] = front(kind, round);
    let [high, low] = number.to_be_bytes();
    [kind, a, b, c, d, high, low]
}

// What stands before the digests in the Boxes of a round: its number, and that of the trains.
pub fn boxes_head(round: u32, trains: u16) -> [u8; 7]
    ensures { result ≡ boxes_head round trains }
{
    numbered(Kind::Boxes, round, trains)
}

// The Ask of a round for a pair.
pub fn ask_bytes(round: u32, pair: u16) -> [u8; 7]
    ensures { result ≡ said_bytes (ask round pair) }
{
    numbered(Kind::Ask, round, pair)
}

fn opening_bytes(opening: Opening) -> [u8; 35]
    ensures { result ≡ opening_bytes (opening_of opening) }
{
    let [high, low] = opening.train.to_be_bytes();
    let mut bytes = [0; 35];
    bytes[..3].copy_from_slice(&[high, low, opening.number]);
    bytes[3..].copy_from_slice(&opening.chance);
    bytes
}

// The Opened of a round, with the openings of two boxes.
pub fn opened_bytes(round: u32, first: Opening, second: Opening) -> [u8; 75]
    ensures { result ≡ said_bytes (opened round (opening_of first) (opening_of second)) }
{
    let mut bytes = [0; 75];
    bytes[..5].copy_from_slice(&front(Kind::Opened, round));
    bytes[5..40].copy_from_slice(&opening_bytes(first));
    bytes[40..].copy_from_slice(&opening_bytes(second));
    bytes
}

// The End of a round, which says whether the asker is content.
pub fn end_bytes(round: u32, content: bool) -> [u8; 6]
    ensures { result ≡ said_bytes (end round content) }
{
    let [kind, a, b, c, d] = front(Kind::End, round);
    [kind, a, b, c, d, u8::from(content)]
}

// The bytes of a word at the front of the memory, and how many; where there is no room nothing is written.
pub fn write_word(word: Word, out: &mut [u8]) -> Option<usize>
    ensures { wrote_to result out.new ≡ write (said_bytes (said word.entry)) out.old }
{
    match word {
        Word::Task(bytes) => write_both(&[], bytes, out),
        Word::Plan(paths) => write_plan(paths, out),
        Word::Boxes(round, digests) => write_boxes(round, digests, out),
        Word::Ask(round, pair) => write_both(&[], &ask_bytes(round, pair), out),
        Word::Opened(round, first, second) => {
            write_both(&[], &opened_bytes(round, first, second), out)
        }
        Word::End(round, content) => write_both(&[], &end_bytes(round, content), out),
    }
}
