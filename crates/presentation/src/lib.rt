// The checked book (document 01: an accepted book), made once from its bytes: its relation words in one text, each once, with their cuts, their families and their
// index in one table. Every round and every comparison works on these two arrays.
#![tactic(auto)]

ghost use Rattle.std.specs.Prelude.{◌≡◌, ◌*◌};
ghost use Rattle.presentation.specs.Loading.{Unchecked, WordsKept, Sided, first_side, by_judged, Memory, BookLoaded, PiecesKept};

use format::BookSize;
use layout::{count_of, side_word};
use pieces::Loose;
use refusals::Refusal;

// Refusal 8 over laid relation words; those of an accepted book get their cuts, their index and their families. Their longest pieces are kept in an array that has room.
fn check_words(
    text: &[u16],
    table: &mut [u16],
    relations: usize,
    array: &mut [u8],
) -> Result<(), Loose>
    requires { Unchecked text.now table.old relations }
    ensures { WordsKept text.now table.old relations array.old table.new array.new result }
{
    let n = count_of(table);
    pieces::judge(text, table, n, array)?;
    listing::make_index(text, table, n);
    families::group(table, n, relations);
    Ok(())
}

// The lowest side with this word, or the number of sides.
#[tactic(auto, using(crate::proofs::Checking::sidings))]
fn first_side(table: &[u16], sides: usize, word: usize) -> usize
    requires { Sided table.now sides }
    ensures { result ≡ first_side table.now sides word }
{
    for s in 0..sides {
        if side_word(table, s) == word {
            return s;
        }
    }
    sides
}

// The answer for a book that was read, by the verdict on its relation words.
#[tactic(auto, using(crate::proofs::Checking::answers))]
fn answer(table: &[u16], size: BookSize, judged: Result<(), Loose>) -> Result<BookSize, Refusal>
    requires { Sided table.now (2 * size.relations) }
    ensures { result ≡ by_judged table.now size judged }
{
    match judged {
        Ok(()) => Ok(size),
        Err(loose) => {
            let side = first_side(table, 2 * size.relations, loose.word);
            Err(Refusal::Loose(side))
        }
    }
}

// Loads a book: the number of its letters and of its relations, or its refusal, which goes straight back. The table of longest pieces, from which it is checked, is kept in
// an array that has room for it.
pub fn load_pieces(
    book: &[u8],
    text: &mut [u16],
    table: &mut [u16],
    array: &mut [u8],
) -> Result<BookSize, Refusal>
    requires { Memory text.old table.old }
    ensures { PiecesKept book.now array.old result text.new table.new array.new }
{
    let reading = reader::read_book(book, text, table);
    let Ok(size) = reading else {
        return reading;
    };
    let judged = check_words(text, table, size.relations, array);
    answer(table, size, judged)
}

// The same where that table is of no further use: no array is lent for it.
pub fn load(book: &[u8], text: &mut [u16], table: &mut [u16]) -> Result<BookSize, Refusal>
    requires { Memory text.old table.old }
    ensures { BookLoaded book.now result text.new table.new }
{
    let mut none = [0u8; 0];
    load_pieces(book, text, table, &mut none)
}
