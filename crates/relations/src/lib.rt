// What a head and a relation say: a record's bytes to their fields (document 01, "Book bytes"), each answer equal to a definition's for every byte slice.
// Where a record lies and the place that its refusal reports are told apart: a record may lie in another slice than the book that it belongs to.
#![tactic(auto)]

ghost use Rattle.std.specs.Prelude.{◌≡◌};
ghost use Rattle.words.specs.Words.{part};
ghost use Rattle.limits.specs.Limits.{letters_most};
ghost use Rattle.words.specs.Letters.{unknown_in};
ghost use Rattle.format.specs.Book.{head_at, fields_at, relation_at};
ghost use Rattle.records.specs.Reads.{Payload};

use format::{HeadFields, RelationFields};
use letters::first_unknown;
use limits::{Head, Relation};
use records::record_at;
use refusals::Refusal;

// The head whose record begins at `at`: refusals 1, 2, 3, 4, reported at `place`.
#[tactic(auto, using(crate::proofs::Fields::heads))]
pub fn head_at(book: &[u8], at: usize, place: usize) -> Result<HeadFields, Refusal>
    ensures { result ≡ head_at letters_most place book.now at }
{
    let Some(record) = record_at(book, at) else {
        return Err(Refusal::Short(place));
    };
    // Kept: a kind is any number of two bytes, which the definition `head_kind` names; an enum would say no more of the others than `_` does.
    let kind = record.kind;
    match kind {
        Head::KIND => {
            if record.to - record.from != Head::PAYLOAD {
                return Err(Refusal::Length(place));
            }
            let head = Head::make(book[record.from]).ok_or(Refusal::Range(place))?;
            Ok(HeadFields {
                letters: head.letters,
                end: record.to,
            })
        }
        _ => Err(Refusal::Kind(place)), // no head
    }
}

// Some letter of a part is not below the number of letters.
#[tactic(auto, using(crate::proofs::Fields::unknowns))]
fn unknown_in(book: &[u8], from: usize, to: usize, letters: u8) -> bool
    requires { Payload book.now from to }
    ensures { result ≡ unknown_in letters (part book.now from to) }
{
    let known = first_unknown(&book[from..to], letters);
    known < to - from
}

// The fields of a relation, from one position to another: refusals 3, 4, 5, reported at `place`.
#[tactic(auto, using(crate::proofs::Fields::fieldsets))]
pub fn fields_at(
    book: &[u8],
    from: usize,
    to: usize,
    place: usize,
    letters: u8,
) -> Result<RelationFields, Refusal>
    requires { Payload book.now from to }
    ensures { result ≡ fields_at letters place book.now from to }
{
    if to - from < Relation::FIXED_PAYLOAD {
        return Err(Refusal::Length(place));
    }
    let m = usize::from(book[from]);
    let n = usize::from(book[from + 1]);
    if to - from != Relation::FIXED_PAYLOAD + m + n {
        return Err(Refusal::Length(place));
    }
    let relation = Relation::make(m, n).ok_or(Refusal::Range(place))?;
    let left = from + Relation::FIXED_PAYLOAD;
    if unknown_in(book, left, to, letters) {
        return Err(Refusal::UnknownLetter(place));
    }
    Ok(RelationFields {
        left,
        right: left + relation.left,
        end: to,
    })
}

// The relation whose record begins at `at`, so many standing before it: refusals 1, 2, 6, reported at `place`, then those of its fields.
#[tactic(auto, using(crate::proofs::Fields::relations))]
pub fn relation_at(
    book: &[u8],
    at: usize,
    place: usize,
    letters: u8,
    count: usize,
) -> Result<RelationFields, Refusal>
    ensures { result ≡ relation_at letters count place book.now at }
{
    let Some(record) = record_at(book, at) else {
        return Err(Refusal::Short(place));
    };
    // Kept: a kind is a number, as in `head_at`; the definition `relation_kind` names it.
    let kind = record.kind;
    match kind {
        Relation::KIND => {
            if Relation::MOST <= count {
                return Err(Refusal::TooMany(place));
            }
            fields_at(book, record.from, record.to, place, letters)
        }
        _ => Err(Refusal::Kind(place)), // no relation
    }
}
