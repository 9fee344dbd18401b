// The laying of relation words: a word and its fence behind the words that are laid, unless it is one of them, and both sides of a relation.
#![tactic(auto)]

ghost use Rattle.std.specs.Prelude.{[], ◌∷◌, ◌++◌, ◌≡◌, ◌+◌, ◌<◌, length};
ghost use Rattle.words.specs.Words.{is_prefix, same_word};
ghost use Rattle.words.specs.Families.{place_of};
ghost use Rattle.words.specs.Writing.{written};
ghost use Rattle.layout.specs.Layout.{Laid, KnownWord, words_in};
ghost use Rattle.laying.specs.Appending.{WordRoom, Appended};
ghost use Rattle.laying.specs.Sides.{is_word_at, SideRoom, SideAppended};
ghost use Rattle.laying.specs.Relations.{RelationRoom, RelationAppended};

use layout::{Table, Text, end_of, start_of};

// A part of the text has the letters of a word of its length.
#[tactic(auto, using(crate::proofs::Finding::agreeing))]
fn have_same_letters(part: &[u16], word: &[u8]) -> bool
    requires { length part.now ≡ length word.now }
    ensures { result ≡ is_prefix part.now word.now }
{
    for (k, &letter) in part.iter().enumerate() {
        if letter != u16::from(word[k]) {
            return false;
        }
    }
    true
}

// A part of the text is the word.
#[tactic(auto, using(crate::proofs::Finding::equals))]
fn are_equal(part: &[u16], word: &[u8]) -> bool
    ensures { result ≡ same_word part.now word.now }
{
    if part.len() == word.len() {
        return have_same_letters(part, word);
    }
    false
}

// Relation word i is the word.
fn is_word(word: &[u8], text: &[u16], table: &[u16], i: usize) -> bool
    requires { KnownWord text.now table.now i }
    ensures { result ≡ is_word_at word.now text.now table.now i }
{
    let start = start_of(table, i);
    let end = end_of(table, i);
    are_equal(&text[start..end], word)
}

// The place of the word among the n that are laid, or n, which is then the place that it gets. Kept: so says `place_of` of crate `words`, and the number that a side
// gets is this one in both cases.
#[tactic(auto, using(crate::proofs::Finding::finding))]
fn find_word(word: &[u8], text: &[u16], table: &[u16], n: usize) -> usize
    requires { Laid text.now table.now n }
    ensures { result ≡ place_of word.now (words_in text.now table.now n) }
{
    for i in 0..n {
        if is_word(word, text, table, i) {
            return i;
        }
    }
    n
}

// Writes a word, and its fence behind it, at a position of the text.
#[tactic(auto, using(crate::proofs::Appending::fences))]
fn write_word(word: &[u8], text: &mut [u16], at: usize, fence: u16)
    requires { at + length word.now < length text.old }
    ensures { text.new ≡ written at (word.now ++ (fence ∷ [])) text.old }
{
    writing::widen(word, text, at);
    text[at + word.len()] = fence;
}

// Lays a relation word behind the i that are laid.
fn append_word(word: &[u8], text: &mut [u16], table: &mut [u16], i: usize)
    requires { WordRoom word.now text.old table.old i }
    ensures { Appended word.now text.old table.old i text.new table.new }
{
    let start = start_of(table, i);
    let fence = Text::LETTERS + i;
    write_word(word, text, start, fence as u16);
    let end = start + word.len();
    table[Table::COLUMNS * i + Table::END] = end as u16;
    table[Table::COLUMNS * (i + 1) + Table::START] = (end + 1) as u16;
}

// Gives side s the number of its word, and lays the word behind the n that are laid if it is none of them. The answer is how many are laid then.
fn append_side(word: &[u8], text: &mut [u16], table: &mut [u16], n: usize, s: usize) -> usize
    requires { SideRoom word.now text.old table.old n s }
    ensures { SideAppended word.now text.old table.old n s text.new table.new result }
{
    let i = find_word(word, text, table, n);
    table[Table::SIDES + s] = i as u16;
    if i < n {
        return n;
    }
    append_word(word, text, table, n);
    n + 1
}

// Lays both sides of the relation that lie from `left` to `right` and from there to `to`, behind the n words of `count` relations. The answer is how many words
// are laid then.
pub fn append_relation(
    book: &[u8],
    left: usize,
    right: usize,
    to: usize,
    text: &mut [u16],
    table: &mut [u16],
    count: usize,
    n: usize,
) -> usize
    requires { RelationRoom book.now left right to text.old table.old count n }
    ensures { RelationAppended book.now left right to text.old table.old count n text.new table.new result }
{
    let m = append_side(&book[left..right], text, table, n, 2 * count);
    append_side(&book[right..to], text, table, m, 2 * count + 1)
}
