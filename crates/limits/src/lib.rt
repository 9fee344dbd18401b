// The limits of document 01 ("What the unit holds"), each named once with the kind of record that it belongs to, with constructors that check ranges.
// The `amounts` of a type are its constants, in the order of its list in specs/Limits.antt, whose numbers the definitions use.
#![tactic(auto)]

ghost use Rattle.std.specs.Prelude.{◌≡◌};
ghost use Rattle.limits.specs.Limits.{outside, head_of, relation_of, word_of, input_of, record_amounts, head_amounts, relation_amounts, comparison_amounts, word_amounts, sheet_amounts, held_amounts, ticket_amounts, input_amounts};

// A whole record of a book: its kind, and where its payload begins and ends.
#[derive(Clone, Copy)]
pub struct Record {
    pub kind: usize,
    pub from: usize,
    pub to: usize,
}

impl Record {
    // The bytes of a record's length and kind.
    pub const PREFIX: usize = 4;

    pub fn amounts() -> [usize; 1]
        ensures { result ≡ record_amounts }
    {
        [Record::PREFIX]
    }
}

// The head record (kind 1): how many letters there are (document 01: steps).
#[derive(Clone, Copy)]
pub struct Head {
    pub letters: u8,
}

impl Head {
    pub const KIND: usize = 1;

    // The bytes of its payload.
    pub const PAYLOAD: usize = 1;

    // The bytes of its record.
    pub const RECORD: usize = Record::PREFIX + Head::PAYLOAD;

    pub const FEWEST_LETTERS: usize = 1;

    pub const MOST_LETTERS: usize = 64;

    pub fn amounts() -> [usize; 5]
        ensures { result ≡ head_amounts }
    {
        [
            Head::KIND,
            Head::PAYLOAD,
            Head::RECORD,
            Head::FEWEST_LETTERS,
            Head::MOST_LETTERS,
        ]
    }

    #[tactic(auto, using(crate::proofs::Limits::makes))]
    pub fn make(letters: u8) -> Option<Head>
        ensures { result ≡ head_of letters }
    {
        if is_outside(Head::FEWEST_LETTERS, Head::MOST_LETTERS, letters as usize) {
            return None;
        }
        Some(Head { letters })
    }
}

// A relation record (kind 2; document 01: a rule): the lengths of its two relation words (document 01: its sides).
#[derive(Clone, Copy)]
pub struct Relation {
    pub left: usize,
    pub right: usize,
}

impl Relation {
    pub const KIND: usize = 2;

    // The bytes of its payload that stand before the letters.
    pub const FIXED_PAYLOAD: usize = 2;

    // The letters of a relation word.
    pub const FEWEST_LETTERS: usize = 1;

    pub const MOST_LETTERS: usize = 64;

    // The bytes of its record at its longest.
    pub const RECORD: usize = Record::PREFIX + Relation::FIXED_PAYLOAD + 2 * Relation::MOST_LETTERS;

    // The most relations of a book.
    pub const MOST: usize = 32;

    pub fn amounts() -> [usize; 6]
        ensures { result ≡ relation_amounts }
    {
        [
            Relation::KIND,
            Relation::FIXED_PAYLOAD,
            Relation::FEWEST_LETTERS,
            Relation::MOST_LETTERS,
            Relation::RECORD,
            Relation::MOST,
        ]
    }

    #[tactic(auto, using(crate::proofs::Limits::makes))]
    pub fn make(left: usize, right: usize) -> Option<Relation>
        ensures { result ≡ relation_of left right }
    {
        if is_outside(Relation::FEWEST_LETTERS, Relation::MOST_LETTERS, left) {
            return None;
        }
        if is_outside(Relation::FEWEST_LETTERS, Relation::MOST_LETTERS, right) {
            return None;
        }
        Some(Relation { left, right })
    }
}

// A comparison record (kind 3): an allowance and two words.
#[derive(Clone, Copy)]
pub struct ComparisonRecord {}

impl ComparisonRecord {
    pub const KIND: usize = 3;

    // The bytes of its payload that stand before the letters.
    pub const FIXED_PAYLOAD: usize = 8;

    // The most rounds that an allowance can give; its field has four bytes.
    pub const ALLOWANCE: usize = 4294967295;

    pub fn amounts() -> [usize; 3]
        ensures { result ≡ comparison_amounts }
    {
        [
            ComparisonRecord::KIND,
            ComparisonRecord::FIXED_PAYLOAD,
            ComparisonRecord::ALLOWANCE,
        ]
    }
}

// A given word (document 01: a run), by its length.
#[derive(Clone, Copy)]
pub struct Word {
    pub length: usize,
}

impl Word {
    // The most letters of a word that is compared.
    pub const COMPARED: usize = 4096;

    // The most letters of a word given to a single round.
    pub const ROUND: usize = 4160;

    // The room that a round asks for a next word.
    pub const NEXT: usize = 4224;

    // The most letters of the front mark, and the room that a round asks for the next one.
    pub const MARK: usize = 64;

    // The most letters of a least word: as many as a relation word has, for each letter of a word that is given.
    pub const LEAST_WORD: usize = Relation::MOST_LETTERS * Word::COMPARED;

    // How far apart the places of the given words lie in refusals 9 and 10.
    pub const SPACING: usize = 5000;

    pub fn amounts() -> [usize; 6]
        ensures { result ≡ word_amounts }
    {
        [
            Word::COMPARED,
            Word::ROUND,
            Word::NEXT,
            Word::MARK,
            Word::LEAST_WORD,
            Word::SPACING,
        ]
    }

    // A word of at most so many letters: COMPARED, ROUND or MARK.
    #[tactic(auto, using(crate::proofs::Limits::makes))]
    pub fn make(letters: usize, most: usize) -> Option<Word>
        ensures { result ≡ word_of most letters }
    {
        if most < letters {
            return None;
        }
        Some(Word { length: letters })
    }
}

// The cut sheet: a row of bytes for each relation word.
#[derive(Clone, Copy)]
pub struct Sheet {}

impl Sheet {
    // A row has the lengths of X, Y and Z, and the number of pieces.
    pub const X: usize = 0;

    pub const Y: usize = 1;

    pub const Z: usize = 2;

    pub const PIECES: usize = 3;

    pub const COLUMNS: usize = 4;

    pub fn amounts() -> [usize; 5]
        ensures { result ≡ sheet_amounts }
    {
        [Sheet::X, Sheet::Y, Sheet::Z, Sheet::PIECES, Sheet::COLUMNS]
    }
}

// A held book: the length of a book and the count of its changes, a two-byte field each, and then the book's own bytes.
#[derive(Clone, Copy)]
pub struct Held {}

impl Held {
    // Where the two fields lie.
    pub const LENGTH_AT: usize = 0;

    pub const CHANGES_AT: usize = 2;

    // The bytes before the book.
    pub const PREFIX: usize = 4;

    // The most bytes of a book: a head, and the most relations at their longest.
    pub const BOOK: usize = Head::RECORD + Relation::MOST * Relation::RECORD;

    // The room that a held book asks for.
    pub const ROOM: usize = Held::PREFIX + Held::BOOK;

    // The most changes that it takes from loading.
    pub const COUNTED: usize = 60000;

    // The number of its buffer in refusal 12; the sheet's is 0.
    pub const BUFFER: usize = 1;

    pub fn amounts() -> [usize; 7]
        ensures { result ≡ held_amounts }
    {
        [
            Held::LENGTH_AT,
            Held::CHANGES_AT,
            Held::PREFIX,
            Held::BOOK,
            Held::ROOM,
            Held::COUNTED,
            Held::BUFFER,
        ]
    }
}

// A ticket: the count of changes of the held book that it was given for, the kind of a change, and a number, a two-byte field each; and then the bytes of a record.
#[derive(Clone, Copy)]
pub struct Ticket {}

impl Ticket {
    // Where the three fields lie.
    pub const CHANGES_AT: usize = 0;

    pub const KIND_AT: usize = 2;

    pub const NUMBER_AT: usize = 4;

    // The bytes before the record.
    pub const PREFIX: usize = 6;

    // The room that a ticket asks for: that of the record of a relation at its longest.
    pub const ROOM: usize = Ticket::PREFIX + Relation::RECORD;

    // The number of its buffer in refusal 12.
    pub const BUFFER: usize = 2;

    // The kinds of changes. Every other number is read as a withdrawal.
    // Kept: numbers, since a ticket's bytes have them, and its definition `change_in` reads any number there; the code's own word for a change is `held::Asked`.
    pub const ADDITION: usize = 0;

    pub const WITHDRAWAL: usize = 1;

    pub fn amounts() -> [usize; 8]
        ensures { result ≡ ticket_amounts }
    {
        [
            Ticket::CHANGES_AT,
            Ticket::KIND_AT,
            Ticket::NUMBER_AT,
            Ticket::PREFIX,
            Ticket::ROOM,
            Ticket::BUFFER,
            Ticket::ADDITION,
            Ticket::WITHDRAWAL,
        ]
    }
}

// What the program reads, by its length.
#[derive(Clone, Copy)]
pub struct Input {
    pub length: usize,
}

impl Input {
    pub const MOST: usize = 60000;

    pub fn amounts() -> [usize; 1]
        ensures { result ≡ input_amounts }
    {
        [Input::MOST]
    }

    #[tactic(auto, using(crate::proofs::Limits::makes))]
    pub fn make(bytes: usize) -> Option<Input>
        ensures { result ≡ input_of bytes }
    {
        if Input::MOST < bytes {
            return None;
        }
        Some(Input { length: bytes })
    }
}

// The number is below the least or above the most.
fn is_outside(least: usize, most: usize, x: usize) -> bool
    ensures { result ≡ outside least most x }
{
    if x < least {
        return true;
    }
    most < x
}
