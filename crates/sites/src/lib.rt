// Where relation words lie in the text, and what is read there: the clean relation prefix of a word, an X that the mark begins, a letter that begins no relation word.
// A word is a `Joined`: a head part, and what follows it.
#![tactic(auto)]

ghost use Rattle.std.specs.Prelude.{◌≡◌, ◌<◌, length};
ghost use Rattle.words.specs.Words.{is_prefix, part};
ghost use Rattle.congruence.specs.Rows.{has_relation_prefix_at, has_relation_prefix_between, clean_relation_prefix};
ghost use Rattle.layout.specs.Places.{end_cell, table_room};
ghost use Rattle.layout.specs.Layout.{Checked};
ghost use Rattle.sites.specs.Sites.{site_of, SiteInText};
ghost use Rattle.sites.specs.Prefixes.{unclean_prefix};
ghost use Rattle.sites.specs.FirstLetters.{empty_list};
ghost use Rattle.layout.specs.Views.{words_of, on};
ghost use Rattle.joined.specs.Words.{word_of};

use joined::Joined;
use layout::{RelationWords, Text};

// Where a relation word lies in the text: its start, the end of X, the start of Z and its end.
#[derive(Clone, Copy)]
pub struct Site {
    pub start: usize,
    pub middle: usize,
    pub tail: usize,
    pub stop: usize,
}

impl Site {
    // Where no relation word is looked at.
    pub const NOWHERE: Site = Site {
        start: 0,
        middle: 0,
        tail: 0,
        stop: 0,
    };
}

// Where relation word i lies.
#[tactic(auto, using(crate::proofs::Laws::site_reads))]
pub fn read_site(table: &[u16], i: usize) -> Site
    requires { end_cell i < length table.now }
    ensures { result ≡ site_of table.now i }
{
    Site {
        start: layout::start_of(table, i),
        middle: layout::x_end_of(table, i),
        tail: layout::z_start_of(table, i),
        stop: layout::end_of(table, i),
    }
}

// Whether p is a prefix of the X at s.
#[tactic(auto, using(crate::proofs::Laws::marks))]
pub fn mark_in_x(text: &[u16], s: Site, p: &[u16]) -> bool
    requires { SiteInText text.now s }
    ensures { result ≡ is_prefix p.now (part text.now s.start s.middle) }
{
    if p.len() == 0 {
        return true;
    }
    let from = s.start;
    if s.middle - from < p.len() {
        return false;
    }
    joined::begins_in(text, from, from + p.len(), p, 0)
}

// Whether no relation word begins with a letter: its list in the index is empty.
pub fn begins_none(table: &[u16], letter: u16) -> bool
    requires { length table.now ≡ table_room }
    ensures { result ≡ empty_list table.now letter }
{
    let c = usize::from(letter);
    if Text::LETTERS <= c {
        return true;
    }
    let from = layout::first_of(table, c);
    let to = layout::first_of(table, c + 1);
    from == to
}

// Whether X and Y of some relation word stand in the word at place q. None is looked for where no relation word begins with the letter there.
#[tactic(auto, using(crate::proofs::Laws::standing))]
fn has_prefix_at(words: &RelationWords, word: &Joined, q: usize) -> bool
    ensures { result ≡ has_relation_prefix_at (words_of words.now) (word_of word.now) q }
{
    if word.has_place(q) {
        if begins_none(words.table, word.letter_at(q)) {
            return false;
        }
        return index::prefix_at(words, word, q) < words.n;
    }
    false
}

// Whether X and Y of some relation word stand in the word at a place from lo on and below hi; an unclean relation prefix and an active rest are both this.
#[tactic(auto, using(crate::proofs::Laws::vacants))]
pub fn has_prefix_between(words: &RelationWords, word: &Joined, lo: usize, hi: usize) -> bool
    ensures { result ≡ has_relation_prefix_between (words_of words.now) (word_of word.now) lo hi }
{
    for q in lo..hi {
        if has_prefix_at(words, word, q) {
            return true;
        }
    }
    false
}

// Whether the X and Y of relation word i, which begin the word, are no clean relation prefix.
#[tactic(auto, using(crate::proofs::Laws::uncleans))]
fn unclean(words: &RelationWords, i: usize, word: &Joined) -> bool
    requires { i < words.now.n }
    ensures { result ≡ unclean_prefix (words_of words.now) i (word_of word.now) }
{
    let s = read_site(words.table, i);
    has_prefix_between(words, word, s.middle - s.start + 1, s.tail - s.start)
}

// The relation word whose X and Y are a clean relation prefix of the word, or n.
#[tactic(auto, using(crate::proofs::Laws::cleans))]
pub fn clean_prefix(words: &RelationWords, word: &Joined) -> usize
    ensures { result ≡ clean_relation_prefix (words_of words.now) (word_of word.now) }
{
    let k = index::prefix_at(words, word, 0);
    if words.n <= k {
        return words.n;
    }
    if unclean(words, k, word) {
        return words.n;
    }
    k
}
