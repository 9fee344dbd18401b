// The making of the index: relation words are listed by first letter, sorted within a letter, each with how many letters it shares with the one before it.
#![tactic(auto)]

ghost use Rattle.std.specs.Prelude.{◌≡◌, ◌+◌, ◌-◌, eqb};
ghost use Rattle.words.specs.Words.{common_prefix};
ghost use Rattle.layout.specs.Places.{letters_bound};
ghost use Rattle.layout.specs.Layout.{order_of, word_at, KnownWord};
ghost use Rattle.insertion.specs.Inserting.{first_letter, Lists, Gathered};
ghost use Rattle.listing.specs.Listing.{Unlisted, NextWord, NextLetter, Neighbours, AllListed, IndexMade};

use insertion::{insert, shared_letters};
use layout::{Table, Text, order_of, start_of};

// Whether relation word k begins with c.
#[tactic(auto, using(crate::proofs::Making::letters))]
fn begins_with(text: &[u16], table: &[u16], k: usize, c: usize) -> bool
    requires { KnownWord text.now table.now k }
    ensures { result ≡ eqb (first_letter text.now table.now k) c }
{
    usize::from(text[start_of(table, k)]) == c
}

// Lists relation word k if it begins with c. The answer is the place behind the last of its letter.
#[tactic(auto, using(crate::proofs::Making::looks))]
fn list_word(
    text: &[u16],
    table: &mut [u16],
    n: usize,
    c: usize,
    from: usize,
    j: usize,
    k: usize,
) -> usize
    requires { NextWord text.now table.old n c from j k }
    ensures { Gathered text.now table.old n c from (k + 1) table.new result }
{
    if begins_with(text, table, k, c) {
        insert(text, table, n, c, from, j, k);
        return j + 1;
    }
    j
}

// Lists all words that begin with c, from place `from` on. The answer is the place behind the last. Where all words are listed, none is looked at.
#[tactic(auto, using(crate::proofs::Making::gathers))]
fn list_letter(text: &[u16], table: &mut [u16], n: usize, c: usize, from: usize) -> usize
    requires { NextLetter text.now table.old n c from }
    ensures { Gathered text.now table.old n c from n table.new result }
{
    if from == n {
        return from;
    }
    let mut j = from;
    for k in 0..n {
        j = list_word(text, table, n, c, from, j, k);
    }
    j
}

// Lists all words under their letters.
#[tactic(auto, using(crate::proofs::Making::listings))]
fn list_all(text: &[u16], table: &mut [u16], n: usize)
    requires { Lists text.now table.old n 0 0 }
    ensures { AllListed text.now table.old n table.new }
{
    let mut j = 0;
    for c in 0..Text::LETTERS {
        j = list_letter(text, table, n, c, j);
        table[Table::FIRST + (c + 1)] = j as u16;
    }
}

// How much the word listed at place j shares with the one before it.
#[tactic(auto, using(crate::proofs::Making::neighbours))]
fn shared_before(text: &[u16], table: &[u16], j: usize) -> usize
    requires { Neighbours text.now table.now j }
    ensures { result ≡ common_prefix (word_at text.now table.now (order_of table.now (j - 1))) (word_at text.now table.now (order_of table.now j)) }
{
    let before = order_of(table, j - 1);
    let here = order_of(table, j);
    shared_letters(text, table, before, here)
}

// Writes what neighbours in the list share.
#[tactic(auto, using(crate::proofs::Making::sharings))]
fn write_shared(text: &[u16], table: &mut [u16], n: usize)
    requires { Lists text.now table.old n letters_bound n }
    ensures { IndexMade text.now table.old n table.new }
{
    for j in 1..n {
        table[Table::SHARED + j] = shared_before(text, table, j) as u16;
    }
}

// Makes the index of n relation words; the positions in the table are kept.
#[tactic(auto, using(crate::proofs::Making::makings))]
pub fn make_index(text: &[u16], table: &mut [u16], n: usize)
    requires { Unlisted text.now table.old n }
    ensures { IndexMade text.now table.old n table.new }
{
    table[Table::FIRST] = 0;
    list_all(text, table, n);
    write_shared(text, table, n);
}
