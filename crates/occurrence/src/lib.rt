// Where a given word stands in the text of the relation words, and whether it is a piece: by the table of longest pieces that the check of the book leaves
// (document 01, "Pieces, C(4) and cuts"). A fence is no letter, so that a word which stands in the text stands in one relation word.
#![tactic(auto)]

ghost use Rattle.std.specs.Prelude.{◌≡◌, ◌+◌, ◌<◌, ◌≤◌, leb, length, get_or};
ghost use Rattle.occurrence.specs.Standing.{first_place, Placeable, mark_at, place_of, Sought, PieceSought};

use moves::Mark;

// The first place of a text at which a word stands, or the length of the text.
fn first_place(text: &[u16], p: &[u16]) -> usize
    ensures { result ≡ first_place text.now p.now }
{
    for q in 0..text.len() {
        if joined::begins_in(p, 0, p.len(), text, q) {
            return q;
        }
    }
    text.len()
}

// Whether the longest piece at a place has at least so many letters. Lengths of pieces are bytes.
fn reaches(longest: &[u8], q: usize, letters: u8) -> bool
    requires { q < length longest.now }
    ensures { result ≡ leb letters (get_or longest.now q 0) }
{
    letters <= longest[q]
}

// The mark of so many letters from a place on. Its bound is no limit of the papers and only keeps the sum in range.
fn mark_at(at: usize, letters: usize) -> Mark
    requires { at + letters ≤ 65536 }
    ensures { result ≡ mark_at at letters }
{
    Mark {
        at,
        to: at + letters,
    }
}

// The place of a word with letters in a text that ends with its last fence: where it stands first the longest piece tells whether it is one, since that is as long
// as the word exactly where this stands at another place too.
#[tactic(auto, using(crate::proofs::Laws::placings))]
fn find_word(text: &[u16], longest: &[u8], p: &[u16]) -> Option<Mark>
    requires { Placeable text.now longest.now p.now }
    ensures { result ≡ place_of text.now longest.now p.now }
{
    let q = first_place(text, p);
    if text.len() <= q {
        return None;
    }
    if reaches(longest, q, p.len() as u8) {
        return Some(mark_at(q, p.len()));
    }
    None
}

// Where a given word stands if it is a piece of n relation words. The empty word is one.
// Kept: text, table and number, since `Sought` asks less than `RelationWords` holds, and docs/AUDIT.md names the function.
#[tactic(auto, using(crate::proofs::Laws::soughts))]
pub fn find_piece(text: &[u16], table: &[u16], n: usize, longest: &[u8], p: &[u16]) -> Option<Mark>
    requires { Sought text.now table.now n longest.now p.now }
    ensures { PieceSought text.now table.now n p.now result }
{
    if p.len() == 0 {
        return Some(Mark::EMPTY);
    }
    let total = layout::start_of(table, n);
    find_word(&text[..total], longest, p)
}
