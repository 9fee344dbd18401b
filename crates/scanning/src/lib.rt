// A pass over a book's records (document 01, "Book bytes"): what reading the book gives, with none of its words laid. Its answer is the definition's for every byte slice.
#![tactic(auto)]

ghost use Rattle.std.specs.Prelude.{◌≡◌};
ghost use Rattle.format.specs.Book.{read_book, reading_of};

use format::BookSize;
use refusals::Refusal;
use relations::{head_at, relation_at};

// Reads the records of a book in turn: the number of letters and of relations, or the first refusal.
#[tactic(auto, using(crate::proofs::Records::goings))]
pub fn read_records(book: &[u8]) -> Result<BookSize, Refusal>
    ensures { result ≡ reading_of (read_book book.now) }
{
    let head = head_at(book, 0, 0)?;
    let mut at = head.end;
    let mut count = 0;
    // Kept: each record tells where the next one begins, so that the loop steps by what it reads; no iterator is plainer.
    while at < book.len() {
        let relation = relation_at(book, at, at, head.letters, count)?;
        at = relation.end;
        count += 1;
    }
    Ok(BookSize {
        letters: head.letters,
        relations: count,
    })
}
