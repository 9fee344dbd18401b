// Which relation word's X and Y stand at a place of a word, found by the index of the relation words.
// The word that is compared is a `Joined`, two slices one behind the other.
#![tactic(auto)]

ghost use Rattle.std.specs.Prelude.{◌≡◌, ◌<◌, length, drop};
ghost use Rattle.layout.specs.Places.{shared_cell};
ghost use Rattle.layout.specs.Layout.{order_of, Checked};
ghost use Rattle.index.specs.Index.{relation_prefix_at};
ghost use Rattle.index.specs.Seek.{met_at, shared_under, Meets, AtLetter, Bucket, Turn};
ghost use Rattle.layout.specs.Views.{words_of, on};
ghost use Rattle.joined.specs.Words.{word_of};

use joined::Joined;
use layout::{RelationWords, Text, first_of, order_of, shared_of, start_of, z_start_of};

// A relation word met with the word that is compared.
#[derive(Clone, Copy)]
pub enum Meeting {
    // its X and Y stand there: its number
    Here(usize),
    // they do not: how many letters it has in common
    Past(usize),
}

// How much the word listed at place j shares with the one before it, or 0 at the first place of its letter.
#[tactic(auto, using(crate::proofs::Seeking::shareds))]
fn shared_under(table: &[u16], from: usize, j: usize) -> usize
    requires { shared_cell j < length table.now }
    ensures { result ≡ shared_under table.now from j }
{
    if j == from {
        return 0;
    }
    shared_of(table, j)
}

// Relation word k is compared with the word at place q, where m letters of its X and Y are known to agree.
fn compare_on(words: &RelationWords, word: &Joined, q: usize, k: usize, m: usize) -> Meeting
    requires { Meets words.now.text.now words.now.table.now (word_of word.now) q k m }
    ensures { result ≡ met_at words.now.text.now words.now.table.now k (drop q (word_of word.now)) }
{
    let from = start_of(words.table, k);
    let to = z_start_of(words.table, k);
    let r = word.common_prefix(words.text, from, to, q, m);
    if r == to - from {
        return Meeting::Here(k);
    }
    Meeting::Past(r)
}

// The word listed at place j, after one that has m letters in common with the word at place q. It is compared only where the two part at that letter.
fn meet_next(
    words: &RelationWords,
    word: &Joined,
    q: usize,
    from: usize,
    j: usize,
    m: usize,
) -> Meeting
    requires { Turn words.now.text.now words.now.table.now (word_of word.now) q from j m }
    ensures { result ≡ met_at words.now.text.now words.now.table.now (order_of words.now.table.now j) (drop q (word_of word.now)) }
{
    let l = shared_under(words.table, from, j);
    if m < l {
        return Meeting::Past(m);
    }
    if l < m {
        return Meeting::Past(l);
    }
    let k = order_of(words.table, j);
    compare_on(words, word, q, k, m)
}

// The word among those listed from place `from` on and below `to` whose X and Y stand at place q, or n.
fn seek(words: &RelationWords, word: &Joined, q: usize, from: usize, to: usize) -> usize
    requires { on words.now Bucket (word_of word.now) q from to }
    ensures { result ≡ relation_prefix_at (words_of words.now) (word_of word.now) q }
{
    let mut m = 0;
    for j in from..to {
        let x = meet_next(words, word, q, from, j, m);
        match x {
            Meeting::Here(k) => return k,
            Meeting::Past(l) => m = l,
        }
    }
    words.n
}

// The relation word whose X and Y stand at place q, or n, where c is the letter at that place.
fn under_letter(words: &RelationWords, word: &Joined, q: usize, c: usize) -> usize
    requires { on words.now AtLetter (word_of word.now) q c }
    ensures { result ≡ relation_prefix_at (words_of words.now) (word_of word.now) q }
{
    if Text::LETTERS <= c {
        return words.n;
    }
    let from = first_of(words.table, c);
    let to = first_of(words.table, c + 1);
    seek(words, word, q, from, to)
}

// The relation word whose X and Y stand in the word at place q, or n.
pub fn prefix_at(words: &RelationWords, word: &Joined, q: usize) -> usize
    ensures { result ≡ relation_prefix_at (words_of words.now) (word_of word.now) q }
{
    if word.has_place(q) {
        let c = usize::from(word.letter_at(q));
        return under_letter(words, word, q, c);
    }
    words.n
}
