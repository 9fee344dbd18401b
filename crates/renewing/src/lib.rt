// The bytes of the book that a change makes of a held book, in an array apart from it, or the refusal of the change itself. A part for the entries, which then check the new book.
#![tactic(auto)]

ghost use Rattle.std.specs.Prelude.{◌≡◌, length};
ghost use Rattle.limits.specs.Limits.{book_most};
ghost use Rattle.format.specs.Book.{addition_at};
ghost use Rattle.held.specs.Held.{book_in};
ghost use Rattle.held.specs.Changes.{addition, withdrawal};
ghost use Rattle.held.specs.Asked.{change_asked};
ghost use Rattle.renewing.specs.Making.{NewMade, Appendable, BookAppended, PartRemovable, PartLeftOut, Removable, RecordLeftOut};

use format::RelationFields;
use held::Asked;
use holding::{book_of, take_up};
use limits::Relation;
use records::{record_at, relation_start};
use refusals::Refusal;
use relations::fields_at;
use writing::put_bytes;

// Writes the book that is held, and a record behind it, into an array, and answers how many bytes they are.
#[tactic(auto, using(crate::proofs::Laws::appends))]
fn append_record(held: &[u8], bytes: &[u8], fresh: &mut [u8]) -> usize
    requires { Appendable held.now bytes.now fresh.old }
    ensures { BookAppended held.now bytes.now fresh.old result fresh.new }
{
    let book = book_of(held);
    put_bytes(book, fresh, 0);
    put_bytes(bytes, fresh, book.len());
    book.len() + bytes.len()
}

// Writes a book without the bytes from one position to another into an array, and answers how many bytes that is.
#[tactic(auto, using(crate::proofs::Laws::parts))]
fn put_without(book: &[u8], from: usize, to: usize, fresh: &mut [u8]) -> usize
    requires { PartRemovable book.now from to fresh.old }
    ensures { PartLeftOut book.now from to fresh.old result fresh.new }
{
    put_bytes(&book[..from], fresh, 0);
    put_bytes(&book[to..], fresh, from);
    from + (book.len() - to)
}

// Writes the book that is held without the record of relation i into an array, and answers how many bytes that is.
fn leave_out(held: &[u8], i: usize, fresh: &mut [u8]) -> usize
    requires { Removable held.now i fresh.old }
    ensures { RecordLeftOut held.now i fresh.old result fresh.new }
{
    let book = book_of(held);
    let from = relation_start(book, i);
    let to = relation_start(book, i + 1);
    put_without(book, from, to, fresh)
}

// The relation that is given apart from its book, as one record and nothing behind it, so many standing before it: refusals 1, 2, 6, 3 for bytes behind it, reported
// at `place`, then those of its fields.
#[tactic(auto, using(crate::proofs::Additions::additions))]
fn addition_at(
    bytes: &[u8],
    place: usize,
    letters: u8,
    count: usize,
) -> Result<RelationFields, Refusal>
    ensures { result ≡ addition_at letters count place bytes.now }
{
    let Some(record) = record_at(bytes, 0) else {
        return Err(Refusal::Short(place));
    };
    // Kept: a kind is any number of two bytes, which the definition `relation_kind` names; an enum would say no more of the others than `_` does.
    let kind = record.kind;
    match kind {
        Relation::KIND => {
            if Relation::MOST <= count {
                return Err(Refusal::TooMany(place));
            }
            if record.to < bytes.len() {
                return Err(Refusal::Length(place));
            }
            fields_at(bytes, record.from, record.to, place, letters)
        }
        _ => Err(Refusal::Kind(place)),
    }
}

// What a record says as the next relation of the book that is held, which has so many letters and relations: its refusals have the book's length as their place.
fn check_record(
    held: &[u8],
    bytes: &[u8],
    letters: u8,
    count: usize,
) -> Result<RelationFields, Refusal>
    ensures { result ≡ addition_at letters count (length (book_in held.now)) bytes.now }
{
    let book = book_of(held);
    addition_at(bytes, book.len(), letters, count)
}

// The new book of an addition.
fn make_addition(held: &[u8], bytes: &[u8], fresh: &mut [u8]) -> Result<usize, Refusal>
    requires { length fresh.old ≡ book_most }
    ensures { NewMade (addition bytes.now) held.now fresh.old result fresh.new }
{
    let size = take_up(held)?;
    check_record(held, bytes, size.letters, size.relations)?;
    Ok(append_record(held, bytes, fresh))
}

// The new book of a withdrawal.
fn make_withdrawal(held: &[u8], i: usize, fresh: &mut [u8]) -> Result<usize, Refusal>
    requires { length fresh.old ≡ book_most }
    ensures { NewMade (withdrawal i) held.now fresh.old result fresh.new }
{
    let size = take_up(held)?;
    if size.relations <= i {
        return Err(Refusal::NoSuchRelation);
    }
    Ok(leave_out(held, i, fresh))
}

// The new book of the change that is asked for.
pub fn make_change(
    asked: Asked,
    held: &[u8],
    bytes: &[u8],
    fresh: &mut [u8],
) -> Result<usize, Refusal>
    requires { length fresh.old ≡ book_most }
    ensures { NewMade (change_asked asked bytes.now) held.now fresh.old result fresh.new }
{
    match asked {
        Asked::Addition => make_addition(held, bytes, fresh),
        Asked::Withdrawal(i) => make_withdrawal(held, i, fresh),
    }
}
