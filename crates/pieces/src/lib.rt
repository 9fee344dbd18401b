// The verdict on the relation words: refusal 8, and the cuts where it is not due (document 01, "Pieces, C(4) and cuts").
#![tactic(auto)]

ghost use Rattle.layout.specs.Layout.{Laid};
ghost use Rattle.loose.specs.Pieces.{Fenced};
ghost use Rattle.pieces.specs.Judging.{LongestKept, JudgedKept};

use cuts::cut;
use layout::{Text, start_of};
use loose::first_loose;

// Why relation words are not accepted: the lowest that is a product of three or fewer pieces.
#[derive(Clone, Copy)]
pub struct Loose {
    pub word: usize,
}

// Keeps the table of longest pieces in an array if that has room for it.
#[tactic(auto, using(crate::proofs::Verdicts::keeps))]
fn keep_longest(longest: &[u8], array: &mut [u8])
    ensures { LongestKept longest.now array.old array.new }
{
    if longest.len() <= array.len() {
        writing::put_bytes(longest, array, 0);
    }
}

// The verdict, and the cuts, of a text that ends with its last fence. The table of longest pieces is of use to few callers: it is kept in an array that has room for it.
fn judge_whole(text: &[u8], table: &mut [u16], n: usize, array: &mut [u8]) -> Result<(), Loose>
    requires { Fenced text.now table.old n }
    ensures { JudgedKept text.now table.old n array.old table.new array.new result }
{
    let mut longest = [0u8; Text::ROOM];
    let r = first_loose(text, table, n, &mut longest);
    keep_longest(&longest[..text.len()], array);
    if r < n {
        return Err(Loose { word: r });
    }
    cut(&longest, table, n);
    Ok(())
}

// The verdict, and the cuts, of a text that may go on behind its last fence. The loops run on a copy in bytes, of which the compiler takes twice as many in a turn.
pub fn judge(text: &[u16], table: &mut [u16], n: usize, array: &mut [u8]) -> Result<(), Loose>
    requires { Laid text.now table.old n }
    ensures { JudgedKept text.now table.old n array.old table.new array.new result }
{
    let total = start_of(table, n);
    let mut bytes = [0u8; Text::ROOM];
    writing::narrow(&text[..total], &mut bytes, 0);
    judge_whole(&bytes[..total], table, n, array)
}
