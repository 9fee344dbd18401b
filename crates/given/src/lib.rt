// The words that an entry is given: refusals 9 and 10 (document 01, "Refusals by number"), and their letters in two bytes, as words inside have them.
#![tactic(auto)]

ghost use Rattle.std.specs.Prelude.{◌≡◌, ◌≤◌, length};
ghost use Rattle.limits.specs.Limits.{mark_most};
ghost use Rattle.given.specs.Given.{Widened};
ghost use Rattle.asked.specs.Given.{given_of, one_of, marked_of, pair_of, triple_of};

use limits::Word;
use refusals::Refusal;

// The letters of an array into which short words are widened. Longer ones get an array of the most letters, whose making takes as long as a short call.
pub const SHORT: usize = 256;

// One given word, by its number and the most letters that it may have. A position in it has two bytes, and 65,535 is no limit of the papers.
#[tactic(auto, using(crate::proofs::Laws::givens))]
fn check_word(number: u8, most: usize, letters: u8, word: &[u8]) -> Result<(), Refusal>
    requires { most ≤ 65535 }
    ensures { result ≡ given_of number most letters word.now }
{
    let Some(given) = Word::make(word.len(), most) else {
        return Err(Refusal::Long(number));
    };
    let at = letters::first_unknown(word, letters);
    if at < given.length {
        return Err(Refusal::Stranger(number, at as u16));
    }
    Ok(())
}

// A front mark, which is word 2 wherever one is given.
fn check_mark(letters: u8, p: &[u8]) -> Result<(), Refusal>
    ensures { result ≡ given_of 2 mark_most letters p.now }
{
    check_word(2, Word::MARK, letters, p)
}

// The word whose least congruent word is asked for.
pub fn check_one(letters: u8, u: &[u8]) -> Result<(), Refusal>
    ensures { result ≡ one_of letters u.now }
{
    check_word(0, Word::COMPARED, letters, u)
}

// The word from which a prefix is removed, and that prefix, which is a front mark, in turn.
#[tactic(auto, using(crate::proofs::Laws::marks))]
pub fn check_marked(letters: u8, u: &[u8], p: &[u8]) -> Result<(), Refusal>
    ensures { result ≡ marked_of letters u.now p.now }
{
    check_one(letters, u)?;
    check_mark(letters, p)
}

// The two words of a comparison, in turn.
#[tactic(auto, using(crate::proofs::Laws::pairs))]
pub fn check_pair(letters: u8, u: &[u8], v: &[u8]) -> Result<(), Refusal>
    ensures { result ≡ pair_of letters u.now v.now }
{
    check_word(0, Word::COMPARED, letters, u)?;
    check_word(1, Word::COMPARED, letters, v)
}

// The two words of a round and its front mark, in turn.
#[tactic(auto, using(crate::proofs::Laws::triples))]
pub fn check_triple(letters: u8, u: &[u8], v: &[u8], p: &[u8]) -> Result<(), Refusal>
    ensures { result ≡ triple_of letters u.now v.now p.now }
{
    check_word(0, Word::ROUND, letters, u)?;
    check_word(1, Word::ROUND, letters, v)?;
    check_mark(letters, p)
}

// Widens a given word into the start of an array.
#[tactic(auto, using(crate::proofs::Laws::widenings))]
pub fn widen_word(word: &[u8], out: &mut [u16])
    requires { length word.now ≤ length out.old }
    ensures { Widened word.now out.new }
{
    writing::widen(word, out, 0);
}
