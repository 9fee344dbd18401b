// The book reader: bytes to relation words (document 01, "Book bytes"). Its answer is what the definition of reading a book gives, for every byte slice.
// It is a part for the entries above it: a book that it reads may still fail C(4).
#![tactic(auto)]

ghost use Rattle.laying.specs.Appending.{Arrays};
ghost use Rattle.reader.specs.Reading.{BookRead};

use format::BookSize;
use laying::append_relation;
use layout::Table;
use refusals::Refusal;
use relations::{head_at, relation_at};

// Reads a book. The relation words are laid in the text and the table as they are read, each once, and their number is put into the table at the end.
#[tactic(auto, using(crate::proofs::Books::goings))]
pub fn read_book(book: &[u8], text: &mut [u16], table: &mut [u16]) -> Result<BookSize, Refusal>
    requires { Arrays text.old table.old }
    ensures { BookRead book.now text.old table.old result text.new table.new }
{
    let head = head_at(book, 0, 0)?;
    table[Table::START] = 0;
    let mut at = head.end;
    let mut count = 0;
    let mut n = 0;
    // Kept: each record tells where the next one begins, so that the loop steps by what it reads; no iterator is plainer.
    while at < book.len() {
        let relation = relation_at(book, at, at, head.letters, count)?;
        n = append_relation(
            book,
            relation.left,
            relation.right,
            relation.end,
            text,
            table,
            count,
            n,
        );
        at = relation.end;
        count += 1;
    }
    table[Table::COUNT] = n as u16;
    Ok(BookSize {
        letters: head.letters,
        relations: count,
    })
}
