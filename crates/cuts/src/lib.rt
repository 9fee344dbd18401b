// The cuts of the relation words, by the table of longest pieces: where X ends and where Z starts (document 01, "Pieces, C(4) and cuts"). They go into the table of
// the relation words together with the numbers of pieces. Lengths and places inside a word are bytes, none above Text::WORD; what goes into the table are positions in
// the text.
#![tactic(auto)]

ghost use Rattle.std.specs.Prelude.{◌≡◌, ◌+◌, ◌-◌, ◌≤◌};
ghost use Rattle.layout.specs.Places.{word_most, text_room};
ghost use Rattle.loose.specs.Pieces.{InTables, AllInTables};
ghost use Rattle.cuts.specs.Cutting.{Tail, tail_by, x_by, z_by, cut_word, CutBy};

use layout::{Table, length_of, start_of};
use loose::is_piece;
use products::number_of;

// At which place of the word of n letters from `start` on the longest piece that ends it starts.
#[tactic(auto, using(crate::proofs::Cutting::tails))]
fn tail_start(longest: &[u8], start: usize, n: u8) -> u8
    requires { Tail longest.now start (start + n) × (n ≤ word_most) }
    ensures { result ≡ n - tail_by longest.now start (start + n) }
{
    for a in 0..n {
        if is_piece(longest, start, a, n) {
            return a;
        }
    }
    n
}

// Where place a of the word that starts at `start` is in the text.
fn position(start: usize, a: u8) -> u16
    requires { (a ≤ word_most) × (start ≤ text_room) }
    ensures { result ≡ start + a }
{
    (start + usize::from(a)) as u16
}

// X ends with the longest piece at the word's start, which the fence does not let go past the word's end.
#[tactic(auto, using(crate::proofs::Cutting::ends))]
fn x_end(longest: &[u8], table: &[u16], i: usize) -> u16
    requires { InTables longest.now table.now i }
    ensures { result ≡ x_by longest.now table.now i }
{
    let start = start_of(table, i);
    let x = longest[start];
    position(start, x)
}

// Z starts with the longest piece that ends the word.
#[tactic(auto, using(crate::proofs::Cutting::ends))]
fn z_start(longest: &[u8], table: &[u16], i: usize) -> u16
    requires { InTables longest.now table.now i }
    ensures { result ≡ z_by longest.now table.now i }
{
    let start = start_of(table, i);
    let a = tail_start(longest, start, length_of(table, i));
    position(start, a)
}

// Sets the two cuts and the number of pieces of word i.
fn cut_word(longest: &[u8], table: &mut [u16], i: usize)
    requires { InTables longest.now table.old i }
    ensures { table.new ≡ cut_word longest.now table.old i }
{
    let x = x_end(longest, table, i);
    let z = z_start(longest, table, i);
    let pieces = number_of(longest, table, i);
    table[Table::COLUMNS * i + Table::X_END] = x;
    table[Table::COLUMNS * i + Table::Z_START] = z;
    table[Table::PIECES + i] = pieces;
}

// Sets the cuts and the numbers of pieces of n words.
pub fn cut(longest: &[u8], table: &mut [u16], n: usize)
    requires { AllInTables longest.now table.old n }
    ensures { CutBy longest.now table.old n table.new }
{
    for i in 0..n {
        cut_word(longest, table, i);
    }
}
