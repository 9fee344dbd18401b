// The rounds of a comparison, and the comparison of two given words, which are widened into lent arrays.
#![tactic(auto)]

ghost use Rattle.std.specs.Prelude.{◌≡◌};
ghost use Rattle.moves.specs.State.{Fitting, StateReady};
ghost use Rattle.comparison.specs.Rounds.{Progressed};
ghost use Rattle.comparison.specs.Widening.{ReadyToWiden, Widenable};
ghost use Rattle.asked.specs.Comparing.{comparison_of, answer_of};
ghost use Rattle.layout.specs.Families.{Ready};
ghost use Rattle.layout.specs.Views.{words_of, family_of, on};

use asked::Comparison;
use given::widen_word;
use layout::RelationWords;
use limits::Word;
use moves::{Mark, PlacedWord, Round, State, make_move};
use refusals::Refusal;

// Some rounds of a comparison: the end and the rounds done, or the state from which another round is due and the rounds done.
// Kept: no `Result`, which is no plainer: a pause is no failure of `make_rounds`, and both cases have the rounds done (`rounds_of` of specs/Rounds.antt).
#[derive(Clone, Copy)]
pub enum Progress {
    Ended(bool, u32),
    Paused(State, u32),
}

// At most `budget` rounds from a state; where another one is due then, the state comes back.
pub fn make_rounds(
    words: &RelationWords,
    first: &[u16],
    second: &[u16],
    start: State,
    budget: u32,
) -> Progress
    requires { on words.now StateReady first.now second.now start }
    ensures { on words.now Progressed first.now second.now start budget result }
{
    let mut s = start;
    let mut done = 0;
    // Kept: a `loop` that counts, since a `for` over the budget needs a second call of `make_move` behind it for the round that is due then. Neither call was inlined any more,
    // and a comparison of most rounds took twice the time.
    loop {
        match make_move(words, first, second, s) {
            Round::End(same) => return Progress::Ended(same, done),
            Round::Next(next) => {
                if budget <= done {
                    return Progress::Paused(s, done);
                }
                s = next;
                done += 1;
            }
        }
    }
}

// The rows' answer for two words that are fine.
fn compare_words(
    words: &RelationWords,
    u: &[u16],
    v: &[u16],
    allowance: u32,
) -> Result<Comparison, Refusal>
    requires { on words.now Fitting u.now v.now }
    ensures { result ≡ answer_of (words_of words.now) (family_of words.now) u.now v.now allowance }
{
    let start = State {
        u: PlacedWord::WHOLE,
        v: PlacedWord::WHOLE,
        mark: Mark::EMPTY,
    };
    match make_rounds(words, u, v, start, allowance) {
        Progress::Ended(true, rounds) => Ok(Comparison::Same(rounds)),
        Progress::Ended(false, rounds) => Ok(Comparison::Different(rounds)),
        Progress::Paused(_, rounds) => Err(Refusal::Spent(rounds)),
    }
}

// The rows' answer for two words in bytes that are fine, which are widened into lent arrays.
fn compare_bytes(
    words: &RelationWords,
    u: &[u8],
    v: &[u8],
    wide_u: &mut [u16],
    wide_v: &mut [u16],
    allowance: u32,
) -> Result<Comparison, Refusal>
    requires { on words.now Widenable u.now v.now wide_u.old wide_v.old }
    ensures { result ≡ answer_of (words_of words.now) (family_of words.now) u.now v.now allowance }
{
    widen_word(u, wide_u);
    widen_word(v, wide_v);
    compare_words(words, &wide_u[..u.len()], &wide_v[..v.len()], allowance)
}

// Two given words under a checked presentation, with an allowance of rounds, and arrays with room for them if they are within their limit.
#[tactic(auto, using(crate::proofs::Laws::givens))]
pub fn compare_given(
    words: &RelationWords,
    letters: u8,
    u: &[u8],
    v: &[u8],
    wide_u: &mut [u16],
    wide_v: &mut [u16],
    allowance: u32,
) -> Result<Comparison, Refusal>
    requires { on words.now ReadyToWiden u.now v.now wide_u.old wide_v.old }
    ensures { result ≡ comparison_of letters (words_of words.now) (family_of words.now) u.now v.now allowance }
{
    given::check_pair(letters, u, v)?;
    compare_bytes(words, u, v, wide_u, wide_v, allowance)
}

// Two given words, widened into arrays that hold the longest ones.
#[inline(never)]
fn compare_long(
    words: &RelationWords,
    letters: u8,
    u: &[u8],
    v: &[u8],
    allowance: u32,
) -> Result<Comparison, Refusal>
    requires { on words.now Ready }
    ensures { result ≡ comparison_of letters (words_of words.now) (family_of words.now) u.now v.now allowance }
{
    let mut first = [0u16; Word::COMPARED];
    let mut second = [0u16; Word::COMPARED];
    compare_given(words, letters, u, v, &mut first, &mut second, allowance)
}

// Two given words, widened into arrays made for this one comparison: short ones where they suffice.
pub fn compare_once(
    words: &RelationWords,
    letters: u8,
    u: &[u8],
    v: &[u8],
    allowance: u32,
) -> Result<Comparison, Refusal>
    requires { on words.now Ready }
    ensures { result ≡ comparison_of letters (words_of words.now) (family_of words.now) u.now v.now allowance }
{
    if given::SHORT < u.len() {
        return compare_long(words, letters, u, v, allowance);
    }
    if given::SHORT < v.len() {
        return compare_long(words, letters, u, v, allowance);
    }
    let mut first = [0u16; given::SHORT];
    let mut second = [0u16; given::SHORT];
    compare_given(words, letters, u, v, &mut first, &mut second, allowance)
}
