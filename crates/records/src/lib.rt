// The records of a book: where in a byte slice a record lies, and its kind (document 01, "Book bytes"), equal to the definition's answer for every byte slice.
#![tactic(auto)]

ghost use Rattle.std.specs.Prelude.{◌≡◌, ◌+◌, ◌<◌, length};
ghost use Rattle.format.specs.Book.{record_at, relation_start};
ghost use Rattle.records.specs.Reads.{Field, Starts};

use limits::{Head, Record};

// A two-byte field, little-endian.
pub fn field_at(book: &[u8], at: usize) -> usize
    requires { at + 1 < length book.now }
    ensures { Field book.now at result }
{
    usize::from(book[at]) + 256 * usize::from(book[at + 1])
}

// The record at a position; none where the bytes end inside it.
#[tactic(auto, using(crate::proofs::Records::records))]
pub fn record_at(book: &[u8], at: usize) -> Option<Record>
    ensures { result ≡ record_at book.now at }
{
    if book.len() < Record::PREFIX {
        return None;
    }
    if book.len() - Record::PREFIX < at {
        return None;
    }
    let length = field_at(book, at);
    let kind = field_at(book, at + 2);
    if book.len() - Record::PREFIX - at < length {
        return None;
    }
    let from = at + Record::PREFIX;
    Some(Record {
        kind,
        from,
        to: from + length,
    })
}

// Where the record of relation k begins.
#[tactic(auto, using(crate::proofs::Starts::starts))]
pub fn relation_start(book: &[u8], k: usize) -> usize
    requires { Starts book.now k }
    ensures { result ≡ relation_start book.now k }
{
    let mut at = Head::RECORD;
    for _ in 0..k {
        at = at + Record::PREFIX + field_at(book, at);
    }
    at
}
