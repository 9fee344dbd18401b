// The least word of a given word under a loaded book, or the least word behind a piece: its letters are counted, and it is then written into the part of a lent buffer from
// an offset on. Parts for the entries, which load the book.
#![tactic(auto)]

ghost use Rattle.std.specs.Prelude.{◌≡◌};
ghost use Rattle.moves.specs.State.{placed_mark};
ghost use Rattle.leastword.specs.Writing.{Asked};
ghost use Rattle.asked.specs.Least.{least_from};
ghost use Rattle.answers.specs.Answers.{of_written_word};
ghost use Rattle.answers.specs.Entries.{WordOutcome, lacks_space, found_at, loaded_least};
ghost use Rattle.answers.specs.Parts.{LeastLoaded, LeastCounted, LeastWidenable};
ghost use Rattle.layout.specs.Views.{words_of, family_of, on};

use given::widen_word;
use layout::RelationWords;
use leastword::{count_least, write_least};
use limits::Word;
use moves::Mark;
use refusals::Refusal;

// Whether a lent buffer has no space for so many letters behind an offset.
#[tactic(auto, using(answers::proofs::LeastCalls::spaces))]
fn lacks_space(room: usize, offset: usize, letters: usize) -> bool
    ensures { result ≡ lacks_space room offset letters }
{
    if room < offset {
        return true;
    }
    room - offset < letters
}

// The least word behind a piece, where it was counted to have so many letters, in the part of a buffer from an offset on.
fn place_counted(
    words: &RelationWords,
    u: &[u16],
    piece: Mark,
    letters: usize,
    buffer: &mut [u8],
    offset: usize,
) -> Result<usize, Refusal>
    requires { on words.now LeastCounted u.now piece letters }
    ensures { WordOutcome.after (of_written_word result) buffer.new ≡ found_at offset (least_from (words_of words.now) (family_of words.now) (placed_mark words.now.text.now piece) u.now) buffer.old }
{
    if lacks_space(buffer.len(), offset, letters) {
        return Err(Refusal::NoSpace);
    }
    write_least(words, u, piece, &mut buffer[offset..]);
    Ok(letters)
}

// The least word behind a piece, of a word that is fine. A counting pass tells before a byte is written whether there is one, and whether it has space.
fn place_least(
    words: &RelationWords,
    u: &[u16],
    piece: Mark,
    buffer: &mut [u8],
    offset: usize,
) -> Result<usize, Refusal>
    requires { on words.now Asked u.now piece }
    ensures { WordOutcome.after (of_written_word result) buffer.new ≡ found_at offset (least_from (words_of words.now) (family_of words.now) (placed_mark words.now.text.now piece) u.now) buffer.old }
{
    let counted = count_least(words, u, piece);
    let Some(letters) = counted else {
        return Err(Refusal::NoPrefix);
    };
    place_counted(words, u, piece, letters, buffer, offset)
}

// The same of a word in bytes, which is widened into a lent array.
fn place_bytes(
    words: &RelationWords,
    u: &[u8],
    piece: Mark,
    wide: &mut [u16],
    buffer: &mut [u8],
    offset: usize,
) -> Result<usize, Refusal>
    requires { on words.now LeastWidenable u.now piece wide.old }
    ensures { WordOutcome.after (of_written_word result) buffer.new ≡ found_at offset (least_from (words_of words.now) (family_of words.now) (placed_mark words.now.text.now piece) u.now) buffer.old }
{
    widen_word(u, wide);
    place_least(words, &wide[..u.len()], piece, buffer, offset)
}

// The same with an array that holds the longest words.
fn place_long(
    words: &RelationWords,
    u: &[u8],
    piece: Mark,
    buffer: &mut [u8],
    offset: usize,
) -> Result<usize, Refusal>
    requires { on words.now Asked u.now piece }
    ensures { WordOutcome.after (of_written_word result) buffer.new ≡ found_at offset (least_from (words_of words.now) (family_of words.now) (placed_mark words.now.text.now piece) u.now) buffer.old }
{
    let mut wide = [0u16; Word::COMPARED];
    place_bytes(words, u, piece, &mut wide, buffer, offset)
}

// The same with an array made for this call: a short one where that suffices.
pub fn place_word(
    words: &RelationWords,
    u: &[u8],
    piece: Mark,
    buffer: &mut [u8],
    offset: usize,
) -> Result<usize, Refusal>
    requires { on words.now Asked u.now piece }
    ensures { WordOutcome.after (of_written_word result) buffer.new ≡ found_at offset (least_from (words_of words.now) (family_of words.now) (placed_mark words.now.text.now piece) u.now) buffer.old }
{
    if given::SHORT < u.len() {
        return place_long(words, u, piece, buffer, offset);
    }
    let mut wide = [0u16; given::SHORT];
    place_bytes(words, u, piece, &mut wide, buffer, offset)
}

// The least word of a given word, which is checked first, under a loaded book of so many letters: the one behind the empty piece.
#[tactic(auto, using(answers::proofs::LeastCalls::given_leasts))]
pub fn loaded_least(
    words: &RelationWords,
    letters: u8,
    u: &[u8],
    buffer: &mut [u8],
    offset: usize,
) -> Result<usize, Refusal>
    requires { on words.now LeastLoaded letters }
    ensures { WordOutcome.after (of_written_word result) buffer.new ≡ loaded_least letters (words_of words.now) (family_of words.now) u.now buffer.old offset }
{
    given::check_one(letters, u)?;
    place_word(words, u, Mark::EMPTY, buffer, offset)
}
