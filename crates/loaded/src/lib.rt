// What the public entries do once a book is loaded: its cut sheet, and a round under it. A part for the entries, which load the book.
#![tactic(auto)]

ghost use Rattle.std.specs.Prelude.{◌≡◌};
ghost use Rattle.answers.specs.Answers.{of_verdict, of_round};
ghost use Rattle.answers.specs.Entries.{SheetOutcome, RoundOutcome, loaded_round, room_of, asked_of};
ghost use Rattle.answers.specs.Parts.{SheetReady, accepted_sheet};
ghost use Rattle.layout.specs.Families.{Ready};
ghost use Rattle.layout.specs.Views.{words_of, family_of, on};

use asked::{Lengths, Round};
use layout::RelationWords;
use limits::{Sheet, Word};
use refusals::Refusal;

// The sheet of an accepted book, by its table: 12 where the buffer is too small.
#[tactic(auto, using(answers::proofs::Laws::table_sheets))]
pub fn accepted_sheet(table: &[u16], relations: usize, sheet: &mut [u8]) -> Result<usize, Refusal>
    requires { SheetReady table.now relations }
    ensures { SheetOutcome.after (of_verdict result) sheet.new ≡ accepted_sheet table.now relations sheet.old }
{
    if sheet.len() < Sheet::COLUMNS * (2 * relations) {
        return Err(Refusal::Narrow(0));
    }
    sheet::write_sheet(table, 2 * relations, sheet);
    Ok(relations)
}

// The room of a round's three buffers.
#[tactic(auto, using(answers::proofs::Rooms::rooms))]
fn check_room(u: usize, v: usize, p: usize) -> Result<(), Refusal>
    ensures { result ≡ room_of u v p }
{
    if u < Word::NEXT {
        return Err(Refusal::Narrow(0));
    }
    if v < Word::NEXT {
        return Err(Refusal::Narrow(1));
    }
    if p < Word::MARK {
        return Err(Refusal::Narrow(2));
    }
    Ok(())
}

// What is given to a round: its words, then its buffers.
#[tactic(auto, using(answers::proofs::Laws::askeds))]
fn check_asked(
    letters: u8,
    u: &[u8],
    v: &[u8],
    p: &[u8],
    first: usize,
    second: usize,
    third: usize,
) -> Result<(), Refusal>
    ensures { result ≡ asked_of letters u.now v.now p.now first second third }
{
    given::check_triple(letters, u, v, p)?;
    check_room(first, second, third)
}

// A round under a loaded book of so many letters: what is given is checked, then the round is made.
#[tactic(auto, using(answers::proofs::Laws::loadeds))]
pub fn loaded_round(
    words: &RelationWords,
    letters: u8,
    u: &[u8],
    v: &[u8],
    p: &[u8],
    nu: &mut [u8],
    nv: &mut [u8],
    np: &mut [u8],
) -> Result<Round<Lengths>, Refusal>
    requires { on words.now Ready }
    ensures { RoundOutcome.after (of_round result) nu.new nv.new np.new ≡ loaded_round letters (words_of words.now) (family_of words.now) u.now v.now p.now nu.old nv.old np.old }
{
    check_asked(letters, u, v, p, nu.len(), nv.len(), np.len())?;
    Ok(rounds::write_round(words, u, v, p, nu, nv, np))
}
