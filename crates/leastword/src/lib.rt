// The least congruent word of a given word, or the least word behind a piece with which it is congruent to it, part by part: its letters are counted, and written at
// the start of a lent buffer as far as that has room. Both are one procedure, that starts with the piece as its mark.
#![tactic(auto)]

ghost use Rattle.std.specs.Prelude.{◌≡◌};
ghost use Rattle.moves.specs.State.{placed_mark};
ghost use Rattle.parts.specs.State.{source_word};
ghost use Rattle.leastword.specs.Writing.{Asked, Puttable, Put, LettersPuttable, counted_of, PutFound};
ghost use Rattle.asked.specs.Least.{least_from};
ghost use Rattle.layout.specs.Views.{words_of, family_of, on};

use layout::RelationWords;
use moves::Mark;
use parts::{LeastState, Source, Stage, make_part};

// Writes letters from a place on if they have room there, and answers the place behind them.
fn put_letters(letters: &[u16], out: &mut [u8], at: usize) -> usize
    requires { LettersPuttable letters.now at }
    ensures { Put letters.now out.old at out.new result }
{
    let next = at + letters.len();
    if next <= out.len() {
        writing::narrow(letters, out, at);
    }
    next
}

// Writes a part of the least word in the same way.
fn put_part(text: &[u16], given: &[u16], source: Source, out: &mut [u8], at: usize) -> usize
    requires { Puttable text.now given.now source at }
    ensures { Put (source_word text.now given.now source) out.old at out.new result }
{
    match source {
        Source::Text { from, to } => put_letters(&text[from..to], out, at),
        Source::Given { from, to } => put_letters(&given[from..to], out, at),
    }
}

// Writes the least word behind a piece at the start of a buffer if it has room there, and answers how many letters it has, or that there is none. A buffer that is too
// small can be changed. The piece is given by where it stands in the text; behind the empty one stands the least congruent word, of which there always is one.
pub fn write_least(
    words: &RelationWords,
    given: &[u16],
    piece: Mark,
    out: &mut [u8],
) -> Option<usize>
    requires { on words.now Asked given.now piece }
    ensures { PutFound (least_from (words_of words.now) (family_of words.now) (placed_mark words.now.text.now piece) given.now) out.old out.new result }
{
    let mut s = LeastState::start(piece);
    let mut at = 0;
    // Kept: a `loop`, since no index is counted here: each round tells the state of the next one, and how many there are is known only at the end.
    loop {
        let stage = make_part(words, given, s)?;
        match stage {
            Stage::End => return Some(at),
            Stage::Go(source, next) => {
                at = put_part(words.text, given, source, out, at);
                s = next;
            }
        }
    }
}

// How many letters the least word behind a piece has, or that there is none: the counting pass, which has no room to write.
pub fn count_least(words: &RelationWords, given: &[u16], piece: Mark) -> Option<usize>
    requires { on words.now Asked given.now piece }
    ensures { result ≡ counted_of (least_from (words_of words.now) (family_of words.now) (placed_mark words.now.text.now piece) given.now) }
{
    let mut none = [0u8; 0];
    write_least(words, given, piece, &mut none)
}
