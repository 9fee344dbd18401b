// How relation words lie in arrays: where each part of the text and of the table begins, and the readers of the table.
#![tactic(auto)]

ghost use Rattle.std.specs.Prelude.{◌≡◌, ◌+◌, ◌-◌, ◌<◌, ◌≤◌, length, get_or};
ghost use Rattle.layout.specs.Places.{word_most, start_cell, x_end_cell, z_start_cell, pieces_cell, end_cell, side_cell, count_cell, family_cell, next_cell, first_cell, order_cell, shared_cell, fixed_places};
ghost use Rattle.layout.specs.Layout.{start_of, x_end_of, z_start_of, pieces_of, end_of, first_of, order_of, shared_of};
ghost use Rattle.layout.specs.Families.{side_word_of, count_of, family_at, next_of, Grouped};
ghost use Rattle.layout.specs.Unique.{Grouped-prop};

use limits::{Head, Relation};

// The text: the relation words one after the other, each with a fence behind it.
#[derive(Clone, Copy)]
pub struct Text {}

impl Text {
    // The most sides, and so the most relation words.
    pub const WORDS: usize = 2 * Relation::MOST;

    // The most letters of a relation word.
    pub const WORD: usize = Relation::MOST_LETTERS;

    // Letters are below this number; relation word i has the fence LETTERS + i.
    pub const LETTERS: usize = Head::MOST_LETTERS;

    pub const ROOM: usize = Text::WORDS * (Text::WORD + 1);
}

// The table: a row of positions for each relation word, and one position more, the length of all; the number of pieces of each; the word of each side and how
// many words there are; the families; then the index of the relation words by their first letters.
#[derive(Clone, Copy)]
pub struct Table {}

impl Table {
    // A row has the start of a relation word, the end of its X, the start of its Z and its end.
    pub const START: usize = 0;

    pub const X_END: usize = 1;

    pub const Z_START: usize = 2;

    pub const END: usize = 3;

    pub const COLUMNS: usize = 4;

    pub const POSITIONS: usize = Table::COLUMNS * Text::WORDS + 1;

    // The number of pieces of each relation word.
    pub const PIECES: usize = Table::POSITIONS;

    // The relation word of each side.
    pub const SIDES: usize = Table::PIECES + Text::WORDS;

    // How many relation words there are.
    pub const COUNT: usize = Table::SIDES + Text::WORDS;

    // The family of each relation word: its lowest member.
    pub const FAMILY: usize = Table::COUNT + 1;

    // The next member of its family.
    pub const NEXT: usize = Table::FAMILY + Text::WORDS;

    // For each letter, and once more, the place from which its relation words are listed.
    pub const FIRST: usize = Table::NEXT + Text::WORDS;

    // The list of the relation words.
    pub const ORDER: usize = Table::FIRST + Text::LETTERS + 1;

    // What each of the list has in common with the one before it.
    pub const SHARED: usize = Table::ORDER + Text::WORDS;

    pub const ROOM: usize = Table::SHARED + Text::WORDS;
}

// The constants are the numbers that the definitions write again, in the order of specs/Places.antt.
pub fn fixed_places() -> [usize; 19]
    ensures { result ≡ fixed_places }
{
    [
        Text::WORDS,
        Text::WORD,
        Text::LETTERS,
        Text::ROOM,
        Table::COLUMNS,
        Table::START,
        Table::X_END,
        Table::Z_START,
        Table::END,
        Table::POSITIONS,
        Table::PIECES,
        Table::SIDES,
        Table::COUNT,
        Table::FAMILY,
        Table::NEXT,
        Table::FIRST,
        Table::ORDER,
        Table::SHARED,
        Table::ROOM,
    ]
}

// What stands in a cell of the table.
fn number_in(table: &[u16], cell: usize) -> usize
    requires { cell < length table.now }
    ensures { result ≡ get_or table.now cell 0 }
{
    usize::from(table[cell])
}

// Kept: the readers below differ in their cells alone, and each is one line over the reader above. They are not one function of a column, since the clauses of the
// crates above cite them and the definitions of their names (`start_of`, `end_of` and the others of specs/Layout.antt and specs/Families.antt).

// Where relation word k starts in the text.
pub fn start_of(table: &[u16], k: usize) -> usize
    requires { start_cell k < length table.now }
    ensures { result ≡ start_of table.now k }
{
    number_in(table, Table::COLUMNS * k + Table::START)
}

// Where its X ends.
pub fn x_end_of(table: &[u16], k: usize) -> usize
    requires { x_end_cell k < length table.now }
    ensures { result ≡ x_end_of table.now k }
{
    number_in(table, Table::COLUMNS * k + Table::X_END)
}

// Where its Z starts.
pub fn z_start_of(table: &[u16], k: usize) -> usize
    requires { z_start_cell k < length table.now }
    ensures { result ≡ z_start_of table.now k }
{
    number_in(table, Table::COLUMNS * k + Table::Z_START)
}

// Where it ends.
pub fn end_of(table: &[u16], k: usize) -> usize
    requires { end_cell k < length table.now }
    ensures { result ≡ end_of table.now k }
{
    number_in(table, Table::COLUMNS * k + Table::END)
}

// How many letters it has: at most Text::WORD, so a byte.
pub fn length_of(table: &[u16], k: usize) -> u8
    requires { (end_cell k < length table.now) × (start_of table.now k ≤ end_of table.now k) × (end_of table.now k ≤ start_of table.now k + word_most) }
    ensures { result ≡ end_of table.now k - start_of table.now k }
{
    (end_of(table, k) - start_of(table, k)) as u8
}

// Its number of pieces.
pub fn pieces_of(table: &[u16], k: usize) -> usize
    requires { pieces_cell k < length table.now }
    ensures { result ≡ pieces_of table.now k }
{
    number_in(table, Table::PIECES + k)
}

// The relation word of side s.
pub fn side_word(table: &[u16], s: usize) -> usize
    requires { side_cell s < length table.now }
    ensures { result ≡ side_word_of table.now s }
{
    number_in(table, Table::SIDES + s)
}

// How many relation words there are.
pub fn count_of(table: &[u16]) -> usize
    requires { count_cell < length table.now }
    ensures { result ≡ count_of table.now }
{
    number_in(table, Table::COUNT)
}

// The family of relation word i: its lowest member.
pub fn family_of(table: &[u16], i: usize) -> usize
    requires { family_cell i < length table.now }
    ensures { result ≡ family_at table.now i }
{
    number_in(table, Table::FAMILY + i)
}

// The member behind relation word i in its family.
pub fn next_of(table: &[u16], i: usize) -> usize
    requires { next_cell i < length table.now }
    ensures { result ≡ next_of table.now i }
{
    number_in(table, Table::NEXT + i)
}

// The place from which the relation words that begin with letter c are listed.
pub fn first_of(table: &[u16], c: usize) -> usize
    requires { first_cell c < length table.now }
    ensures { result ≡ first_of table.now c }
{
    number_in(table, Table::FIRST + c)
}

// The relation word that is listed at place j.
pub fn order_of(table: &[u16], j: usize) -> usize
    requires { order_cell j < length table.now }
    ensures { result ≡ order_of table.now j }
{
    number_in(table, Table::ORDER + j)
}

// How many letters it shares with the one listed before it.
pub fn shared_of(table: &[u16], j: usize) -> usize
    requires { shared_cell j < length table.now }
    ensures { result ≡ shared_of table.now j }
{
    number_in(table, Table::SHARED + j)
}

// The relation words of a checked presentation: the text and the table in which they lie, and how many they are. Every round works on them.
#[derive(Clone, Copy)]
pub struct RelationWords<'t> {
    pub text: &'t [u16],
    pub table: &'t [u16],
    pub n: usize,
    ghost grouped: { Grouped text.now table.now n } by { Grouped-prop text.now table.now n },
}
