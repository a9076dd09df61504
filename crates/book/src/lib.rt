// The book of a showing: a digest of the task, and after each round a digest of the one before it and of the round's words.
#![tactic(auto)]

ghost use Rattle.std.specs.Prelude.{◌≡◌, ℕ, List, [], ◌∷◌, ◌++◌};
ghost use Rattle.sha256.specs.Sha256.{sha256};
ghost use Rattle.sha256.specs.Stream.{Holds};
ghost use Rattle.book.specs.Lengths.{Apart, RoundLong};
ghost use Rattle.book.specs.Model.{text_of};
ghost use Rattle.book.specs.Chain.{next_digest, after, Sized, Binds};

use sha256::{Hasher, digest};

// The digest before the first round.
pub fn start(task: &[u8]) -> [u8; 32]
    ensures value { result ≡ after sha256 task.now [] }
    ensures sized { Sized sha256 }
    ensures apart { Apart }
{
    digest(task)
}

// The words of a closed round, in the order in which they are sent and hashed; no Opened is no bytes.
#[derive(Clone, Copy)]
pub struct RoundWords<'a> {
    pub boxes: &'a [u8],
    pub ask: &'a [u8],
    pub opened: &'a [u8],
    pub end: &'a [u8],
}

// The four one after the other, as `keeping` writes them: a method that gave them as a list would be longer than the four calls.
fn add_words(h: &mut Hasher, words: RoundWords)
    ensures { (m : List ℕ) → Holds h.old m → Holds h.new (m ++ text_of words.entry) }
{
    h.update(words.boxes);
    h.update(words.ask);
    h.update(words.opened);
    h.update(words.end);
}

// The digest after a round, from the one before it and the round's words.
pub fn next(before: [u8; 32], words: RoundWords) -> [u8; 32]
    ensures value { result ≡ next_digest sha256 before (text_of words.entry) }
    ensures chain { (task : List ℕ) (ws : List (List ℕ)) → before ≡ after sha256 task ws → result ≡ after sha256 task (text_of words.entry ∷ ws) }
    ensures long { RoundLong }
    ensures bound { Binds sha256 }
    ensures binds { (hash : List ℕ → List ℕ) → Sized hash → Binds hash }
{
    let mut h = Hasher::new();
    h.update(&before);
    add_words(&mut h, words);
    h.finish()
}
