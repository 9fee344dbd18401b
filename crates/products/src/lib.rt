// The number of pieces of a relation word, by the table of longest pieces (document 01, "Pieces, C(4) and cuts"): taking the longest piece each time needs the
// fewest, since every part of a piece is a piece. Lengths and places inside a word are bytes, none above Text::WORD.
#![tactic(auto)]

ghost use Rattle.std.specs.Prelude.{◌≡◌, ◌+◌, ◌<◌, ◌≤◌, length};
ghost use Rattle.layout.specs.Places.{word_most};
ghost use Rattle.loose.specs.Pieces.{InTables};
ghost use Rattle.products.specs.Products.{piece_by, number_from, number_by, Enclosed};

use layout::{length_of, start_of};

// The number of pieces of a relation word.
#[derive(Clone, Copy)]
pub struct Number {}

impl Number {
    // For a word that is no product of pieces. Kept: a number and no Option, since docs/SPECIFICATION.md ("Forms of the code") fixes this byte; it stands in a cell of
    // the table and in the cut sheet, and the contract of `number_of` (`number_by`) has it as that number.
    pub const NONE: u8 = 255;
}

// The length of the longest piece at place a of the word that starts at `start`.
fn piece_at(longest: &[u8], start: usize, a: u8) -> u8
    requires { (start + a < length longest.now) × (a ≤ word_most) }
    ensures { result ≡ piece_by longest.now start a }
{
    longest[start + usize::from(a)]
}

// The number of pieces of the word of n letters that starts at `start`.
fn number_from(longest: &[u8], start: usize, n: u8) -> u8
    requires { Enclosed longest.now start n }
    ensures { result ≡ number_from longest.now start n }
{
    // Kept: no index is counted here, as place a goes up by a whole piece, and a `for` has no such step.
    let mut a = 0;
    let mut count = 0;
    while a < n {
        let piece = piece_at(longest, start, a);
        if piece == 0 {
            return Number::NONE;
        }
        a += piece;
        count += 1;
    }
    count
}

// The number of pieces of word i.
pub fn number_of(longest: &[u8], table: &[u16], i: usize) -> u16
    requires { InTables longest.now table.now i }
    ensures { result ≡ number_by longest.now table.now i }
{
    u16::from(number_from(longest, start_of(table, i), length_of(table, i)))
}
