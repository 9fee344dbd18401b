// One relation word more in the list of its letter: relation words compared, and one inserted where it belongs.
#![tactic(auto)]

ghost use Rattle.std.specs.Prelude.{◌≡◌, ◌+◌};
ghost use Rattle.words.specs.Words.{common_prefix};
ghost use Rattle.layout.specs.Layout.{word_at, WordPair};
ghost use Rattle.insertion.specs.Inserting.{earlier, before_listed, Inserting, Movable, MovedUp, NextOfLetter, Gathered};

use joined::common_prefix_in;
use layout::{Table, end_of, order_of, start_of};

// How many letters relation words h and k have in common at their prefixes.
#[tactic(auto, using(crate::proofs::Inserting::pairs))]
pub fn shared_letters(text: &[u16], table: &[u16], h: usize, k: usize) -> usize
    requires { WordPair text.now table.now h k }
    ensures { result ≡ common_prefix (word_at text.now table.now h) (word_at text.now table.now k) }
{
    let from = start_of(table, h);
    let to = end_of(table, h);
    let q = start_of(table, k);
    common_prefix_in(text, from, to, text, q, 0)
}

// Whether relation word h is listed before relation word k under their letter.
fn is_earlier(text: &[u16], table: &[u16], h: usize, k: usize) -> bool
    requires { WordPair text.now table.now h k }
    ensures { result ≡ earlier text.now table.now h k }
{
    let m = shared_letters(text, table, h, k);
    let from = start_of(table, h);
    let to = start_of(table, k);
    text[from + m] < text[to + m]
}

// Whether relation word k goes before the word listed at place i - 1.
#[tactic(auto, using(crate::proofs::Inserting::insertings))]
fn is_before_listed(text: &[u16], table: &[u16], i: usize, k: usize) -> bool
    requires { Inserting text.now table.now i k }
    ensures { result ≡ before_listed text.now table.now i k }
{
    let h = order_of(table, i - 1);
    is_earlier(text, table, k, h)
}

// Moves the word listed at place i - 1 to place i.
#[tactic(auto, using(crate::proofs::Inserting::moves))]
fn move_up(table: &mut [u16], i: usize)
    requires { Movable table.old i }
    ensures { MovedUp table.old i table.new }
{
    table[Table::ORDER + i] = table[Table::ORDER + (i - 1)];
}

// Lists relation word k, which begins with c, among the words of that letter, which are listed from place `from` on and below j: the later ones move up.
pub fn insert(text: &[u16], table: &mut [u16], n: usize, c: usize, from: usize, j: usize, k: usize)
    requires { NextOfLetter text.now table.old n c from j k }
    ensures { Gathered text.now table.old n c from (k + 1) table.new (j + 1) }
{
    // Kept: the loop ends at the place where word k belongs, which the store behind it needs, so a `for` over the places would have to carry its index out of the
    // loop by hand.
    let mut i = j;
    while from < i && is_before_listed(text, table, i, k) {
        move_up(table, i);
        i -= 1;
    }
    table[Table::ORDER + i] = k as u16;
}
