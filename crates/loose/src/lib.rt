// Whether a relation word is a product of three or fewer pieces, by the table of longest pieces: the test of C(4) (document 01, "Pieces, C(4) and cuts", refusal 8).
// Lengths and places inside a word are bytes. None is above Text::WORD, the most letters of a word, also where a loop is left.
#![tactic(auto)]

ghost use Rattle.std.specs.Prelude.{◌≡◌, ◌-◌, ◌≤◌};
ghost use Rattle.overlap.specs.Cuts.{three};
ghost use Rattle.layout.specs.Places.{word_most};
ghost use Rattle.loose.specs.Pieces.{held, Covered, CutPoints, InTables, AllInTables, loose_by, lowest_loose, Measurable, Measured};

use layout::{length_of, start_of};
use longest::fill_longest;

// The letters from place a to place b of the word that starts at `start` are a piece.
pub fn is_piece(longest: &[u8], start: usize, a: u8, b: u8) -> bool
    requires { CutPoints longest.now start b a b × (b ≤ word_most) }
    ensures { result ≡ held longest.now start a (b - a) }
{
    b - a <= longest[start + usize::from(a)]
}

// The word of n letters from `start` on is a product of three pieces, perhaps empty, cut at i and at j. A part that is no piece is the start of none, so that a
// loop ends with it. The empty word is such a product; in any other no cut has to be tried at the end, since an empty last part may as well be the middle one.
fn three_pieces(longest: &[u8], start: usize, n: u8) -> bool
    requires { Covered longest.now start n × (n ≤ word_most) }
    ensures { result ≡ three (held longest.now start) n }
{
    let mut found = n == 0;
    'outer: for i in 0..n {
        if !is_piece(longest, start, 0, i) {
            break;
        }
        for j in i..n {
            if !is_piece(longest, start, i, j) {
                break;
            }
            if is_piece(longest, start, j, n) {
                found = true;
                break 'outer;
            }
        }
    }
    found
}

// Word i is a product of three or fewer pieces.
#[tactic(auto, using(crate::proofs::Lowest::loosing))]
fn is_loose(longest: &[u8], table: &[u16], i: usize) -> bool
    requires { InTables longest.now table.now i }
    ensures { result ≡ loose_by longest.now table.now i }
{
    three_pieces(longest, start_of(table, i), length_of(table, i))
}

// The lowest such word, or n. Kept: a number and no Option, since the contract of `first_loose` promises the definition of that name in crate `overlap`, which is n
// where there is none.
#[tactic(auto, using(crate::proofs::Lowest::seeking))]
fn lowest_loose(longest: &[u8], table: &[u16], n: usize) -> usize
    requires { AllInTables longest.now table.now n }
    ensures { result ≡ lowest_loose longest.now table.now n }
{
    for i in 0..n {
        if is_loose(longest, table, i) {
            return i;
        }
    }
    n
}

// The lowest relation word that is a product of three or fewer pieces, or n, from the text; the table of longest pieces is left for the cuts.
pub fn first_loose(text: &[u8], table: &[u16], n: usize, longest: &mut [u8]) -> usize
    requires { Measurable text.now table.now n longest.old }
    ensures { Measured text.now table.now n longest.new result }
{
    fill_longest(text, longest);
    lowest_loose(longest, table, n)
}
