// A held book in its lent buffer: where its book lies, what reading that gives, its count of changes, and the writing of a book with both.
#![tactic(auto)]

ghost use Rattle.std.specs.Prelude.{◌≡◌, ◌+◌, ◌≤◌, length};
ghost use Rattle.words.specs.Writing.{written};
ghost use Rattle.format.specs.Book.{read_book, reading_of};
ghost use Rattle.format.specs.Bytes.{field_bytes};
ghost use Rattle.held.specs.Held.{book_in, book_start, changes_told, holding, taken_up};
ghost use Rattle.holding.specs.Held.{Holdable};

use format::BookSize;
use limits::Held;
use records::field_at;
use refusals::Refusal;
use scanning::read_records;

// The number of bytes of the book that is held.
#[tactic(auto, using(crate::proofs::Laws::lengths))]
fn book_length(held: &[u8]) -> usize
    ensures { result ≡ length (book_in held.now) }
{
    if held.len() < Held::PREFIX {
        return 0;
    }
    field_at(held, Held::LENGTH_AT).min(held.len() - Held::PREFIX)
}

// Where the book that is held begins.
pub fn book_start(held: &[u8]) -> usize
    ensures { result ≡ book_start held.now }
{
    Held::PREFIX.min(held.len())
}

// The book that is held, as a part of its buffer.
#[tactic(auto, using(crate::proofs::Laws::parts))]
pub fn book_of(held: &[u8]) -> &[u8]
    ensures { result.now ≡ book_in held.now }
{
    let start = book_start(held);
    let end = start + book_length(held);
    &held[start..end]
}

// What reading it gives.
fn read_kept(held: &[u8]) -> Result<BookSize, Refusal>
    ensures { result ≡ reading_of (read_book (book_in held.now)) }
{
    let book = book_of(held);
    read_records(book)
}

// What a change finds: the number of letters and of relations of the book that is held, or a refusal.
#[tactic(auto, using(crate::proofs::Laws::takings))]
pub fn take_up(held: &[u8]) -> Result<BookSize, Refusal>
    ensures { result ≡ reading_of (taken_up held.now) }
{
    if held.len() < Held::ROOM {
        return Err(Refusal::Narrow(Held::BUFFER));
    }
    read_kept(held)
}

// The count of changes.
#[tactic(auto, using(crate::proofs::Laws::lengths))]
pub fn changes_of(held: &[u8]) -> usize
    ensures { result ≡ changes_told held.now }
{
    if held.len() < Held::PREFIX {
        return 0;
    }
    field_at(held, Held::CHANGES_AT)
}

// Writes a two-byte field, little-endian.
#[tactic(auto, using(crate::proofs::Laws::fields))]
pub fn put_field(x: u16, out: &mut [u8], at: usize)
    requires { at + 2 ≤ length out.old }
    ensures { out.new ≡ written at (field_bytes x) out.old }
{
    out[at] = (x % 256) as u8;
    out[at + 1] = (x / 256) as u8;
}

// Puts a book into the buffer of a held book, with its count of changes.
#[tactic(auto, using(crate::proofs::Laws::holds))]
pub fn hold(book: &[u8], changes: usize, held: &mut [u8])
    requires { Holdable book.now changes held.old }
    ensures { held.new ≡ holding changes book.now held.old }
{
    put_field(book.len() as u16, held, Held::LENGTH_AT);
    put_field(changes as u16, held, Held::CHANGES_AT);
    writing::put_bytes(book, held, Held::PREFIX);
}
