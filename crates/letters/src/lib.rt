// Letters that a head does not have (document 01: unknown steps and strangers), looked for in a word.
#![tactic(auto)]

ghost use Rattle.std.specs.Prelude.{◌≡◌};
ghost use Rattle.letters.specs.Letters.{largest};
ghost use Rattle.words.specs.Letters.{first_unknown};

// The largest letter of a word, or 0 of the empty one. The loop has no way out but its end, so that the compiler takes many letters in a turn.
#[tactic(auto, using(crate::proofs::Letters::tops))]
fn largest(word: &[u8]) -> u8
    ensures { result ≡ largest word.now }
{
    let mut most = 0;
    for &letter in word {
        most = most.max(letter);
    }
    most
}

// The position of the first letter that is not below the number of letters, or the word's length, one letter a turn.
// Kept: a position and no Option, since the definition `first_unknown` of crate `words`, which the contract cites, is the length where there is no such letter.
fn search_unknown(word: &[u8], letters: u8) -> usize
    ensures { result ≡ first_unknown letters word.now }
{
    word.iter()
        .position(|&letter| letters <= letter)
        .unwrap_or(word.len())
}

// The position of the first letter that is not below the number of letters, or the word's length. A word without such a letter, which is the usual case, is not
// searched.
#[tactic(auto, using(crate::proofs::Letters::unknowns))]
pub fn first_unknown(word: &[u8], letters: u8) -> usize
    ensures { result ≡ first_unknown letters word.now }
{
    if largest(word) < letters {
        return word.len();
    }
    search_unknown(word, letters)
}
