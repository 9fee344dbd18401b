// What can be refused (document 01, "Refusals by number"), and the number and place of each.
#![tactic(auto)]

ghost use Rattle.std.specs.Prelude.{◌≡◌};
ghost use Rattle.refusals.specs.Refusals.{number_and_place};

use limits::{Input, Word};

// What can be refused, in the order of document 01's table, in which 7 is not used; `Numbered::from` gives its number and its place. A record's place is its
// first byte.
#[derive(Clone, Copy)]
pub enum Refusal {
    // The bytes end inside a record, or the book is empty.
    Short(usize),
    // The first record is no head, or a later one no relation.
    Kind(usize),
    // The payload's length does not fit the record.
    Length(usize),
    // The number of letters, or of those of a relation word, is outside its range.
    Range(usize),
    // A letter that the head does not have (document 01: unknown step).
    UnknownLetter(usize),
    // One relation over the limit (thick).
    TooMany(usize),
    // A side whose word is a product of three or fewer pieces (loose), by its number.
    Loose(usize),
    // A given word over its limit, by its number.
    Long(u8),
    // A letter that the head does not have in a given word, by the word's number and its position (stranger).
    Stranger(u8, u16),
    // Another round was due, and the allowance was used up: the rounds done.
    Spent(u32),
    // A lent buffer that is too small, by its number.
    Narrow(usize),
    // The program's input is over its limit.
    Heavy,
    // A lent buffer has no space for a least word behind the offset (no space).
    NoSpace,
    // A held book has no relation of the index that is to be withdrawn (no such rule).
    NoSuchRelation,
    // A ticket is posted whose count of changes is not that of the held book (stale ticket).
    StaleTicket,
    // A held book has taken all the changes that it takes (book worn).
    BookWorn,
    // A given word that is no piece of the book (not a piece).
    NotPiece,
    // A piece behind which no word is congruent to the given one (no such front).
    NoPrefix,
}

// A refusal as document 01 writes it.
#[derive(Clone, Copy)]
pub struct Numbered {
    pub number: u8,
    pub place: usize,
}

// A number and a place.
fn told(number: u8, place: usize) -> Numbered
    ensures { result ≡ record { number = number; place = place } }
{
    Numbered { number, place }
}

// Document 01's number and place of a refusal.
impl From<Refusal> for Numbered {
    ghost from_gives = { λ refusal numbered. numbered ≡ number_and_place refusal };

    fn from(refusal: Refusal) -> Numbered {
        match refusal {
            Refusal::Short(at) => told(1, at),
            Refusal::Kind(at) => told(2, at),
            Refusal::Length(at) => told(3, at),
            Refusal::Range(at) => told(4, at),
            Refusal::UnknownLetter(at) => told(5, at),
            Refusal::TooMany(at) => told(6, at),
            Refusal::Loose(side) => told(8, side),
            Refusal::Long(word) => told(9, Word::SPACING * usize::from(word)),
            Refusal::Stranger(word, position) => told(
                10,
                Word::SPACING * usize::from(word) + usize::from(position),
            ),
            Refusal::Spent(rounds) => told(11, rounds as usize),
            Refusal::Narrow(buffer) => told(12, buffer),
            Refusal::Heavy => told(13, Input::MOST),
            Refusal::NoSpace => told(14, 0),
            Refusal::NoSuchRelation => told(15, 0),
            Refusal::StaleTicket => told(16, 0),
            Refusal::BookWorn => told(17, 0),
            Refusal::NotPiece => told(18, 0),
            Refusal::NoPrefix => told(19, 0),
        }
    }
}
