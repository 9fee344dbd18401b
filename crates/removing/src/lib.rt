// The public entry that removes a prefix from a word (document 01: taking a front off), and its parts once the book is loaded. It has no `requires`, and promises that its
// answer is the one that crate `removal` defines, refusals in document 01's order and the lent buffer included, together with what is owed in words (`RemovalAnswered`).
#![tactic(auto)]

ghost use Rattle.std.specs.Prelude.{◌≡◌};
ghost use Rattle.occurrence.specs.Standing.{PieceSought};
ghost use Rattle.answers.specs.Answers.{of_written_word};
ghost use Rattle.answers.specs.Entries.{WordOutcome};
ghost use Rattle.removal.specs.Removal.{removed_at, loaded_removal};
ghost use Rattle.removal.specs.Asked.{Removable, PrefixGiven, Marked};
ghost use Rattle.removal.specs.Demands.{RemovalAnswered};
ghost use Rattle.layout.specs.Views.{words_of, family_of, on};

use given::widen_word;
use layout::{RelationWords, Table, Text};
use limits::Word;
use moves::Mark;
use placing::place_word;
use presentation::load_pieces;
use refusals::Refusal;

// Where the prefix stands in the text if it is a piece. It is widened, as words inside are.
fn find_prefix(words: &RelationWords, longest: &[u8], p: &[u8]) -> Option<Mark>
    requires { PrefixGiven words.now.text.now words.now.table.now longest.now words.now.n p.now }
    ensures { on words.now PieceSought p.now result }
{
    let mut wide = [0u16; Word::MARK];
    widen_word(p, &mut wide);
    occurrence::find_piece(words.text, words.table, words.n, longest, &wide[..p.len()])
}

// The removal of a prefix from a word, both of which are fine: 18, or the least word behind the piece.
fn remove_piece(
    words: &RelationWords,
    longest: &[u8],
    u: &[u8],
    p: &[u8],
    buffer: &mut [u8],
    offset: usize,
) -> Result<usize, Refusal>
    requires { Marked words.now.text.now words.now.table.now longest.now words.now.n u.now p.now }
    ensures { WordOutcome.after (of_written_word result) buffer.new ≡ removed_at (words_of words.now) (family_of words.now) u.now p.now buffer.old offset }
{
    let place = find_prefix(words, longest, p);
    let Some(piece) = place else {
        return Err(Refusal::NotPiece);
    };
    place_word(words, u, piece, buffer, offset)
}

// The removal of a given prefix from a given word, which are checked first, under a loaded book of so many letters with the table of its longest pieces.
#[tactic(auto, using(crate::proofs::Laws::given_removals))]
fn loaded_removal(
    words: &RelationWords,
    longest: &[u8],
    letters: u8,
    u: &[u8],
    p: &[u8],
    buffer: &mut [u8],
    offset: usize,
) -> Result<usize, Refusal>
    requires { Removable words.now.text.now words.now.table.now longest.now words.now.n letters }
    ensures { WordOutcome.after (of_written_word result) buffer.new ≡ loaded_removal letters (words_of words.now) (family_of words.now) u.now p.now buffer.old offset }
{
    given::check_marked(letters, u, p)?;
    remove_piece(words, longest, u, p, buffer, offset)
}

// Writes the least word w of which p w is congruent to u, for a piece p of the book, into the part of a lent buffer from an offset on.
pub fn remove_prefix(
    book: &[u8],
    u: &[u8],
    p: &[u8],
    buffer: &mut [u8],
    offset: usize,
) -> Result<usize, Refusal>
    ensures { RemovalAnswered book.now u.now p.now buffer.old offset (WordOutcome.after (of_written_word result) buffer.new) }
{
    let mut text = [0u16; Text::ROOM];
    let mut table = [0u16; Table::ROOM];
    let mut longest = [0u8; Text::ROOM];
    let size = load_pieces(book, &mut text, &mut table, &mut longest)?;
    let words = RelationWords {
        text: &text,
        table: &table,
        n: layout::count_of(&table),
    };
    loaded_removal(&words, &longest, size.letters, u, p, buffer, offset)
}
