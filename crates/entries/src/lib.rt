// The public entries: what a customer calls. None has a `requires`; each promises that its answer equals a definition's (crate answers, specs/Entries.antt),
// refusals in document 01's order and lent buffers included: as an equality, or, of `compare` and `least_word`, as the field `is` of a record that holds beside it
// what is owed in words (`Compared`, `LeastAnswered`). The demands are spelled out in crate answers, specs/Demands.antt.
#![tactic(auto)]

ghost use Rattle.std.specs.Prelude.{◌≡◌};
ghost use Rattle.answers.specs.Answers.{of_verdict, of_round, of_comparison, of_printed, of_written_word};
ghost use Rattle.answers.specs.Entries.{check_of, SheetOutcome, sheet_of, RoundOutcome, round_of, WordOutcome, OutputOutcome, output_of};
ghost use Rattle.answers.specs.Demands.{Compared, LeastAnswered};

use asked::Comparison;
pub use asked::{Lengths, Round};
use layout::{RelationWords, Table, Text};
use loaded::{accepted_sheet, loaded_round};
use placing::loaded_least;
use program::Output;
use refusals::Refusal;

// Checks a book.
#[tactic(auto, using(answers::proofs::Laws::checks))]
pub fn check_book(book: &[u8]) -> Result<usize, Refusal>
    ensures { of_verdict result ≡ check_of book.now }
{
    let mut text = [0u16; Text::ROOM];
    let mut table = [0u16; Table::ROOM];
    let size = presentation::load(book, &mut text, &mut table)?;
    Ok(size.relations)
}

// Writes the cut sheet of a book at the start of a lent buffer.
#[tactic(auto, using(answers::proofs::Laws::cut_sheets))]
pub fn cut_sheet(book: &[u8], sheet: &mut [u8]) -> Result<usize, Refusal>
    ensures { SheetOutcome.after (of_verdict result) sheet.new ≡ sheet_of book.now sheet.old }
{
    let mut text = [0u16; Text::ROOM];
    let mut table = [0u16; Table::ROOM];
    let size = presentation::load(book, &mut text, &mut table)?;
    accepted_sheet(&table, size.relations, sheet)
}

// Compares two words under a book, with an allowance of rounds.
pub fn compare(book: &[u8], u: &[u8], v: &[u8], allowance: u32) -> Result<Comparison, Refusal>
    ensures { Compared book.now u.now v.now allowance (of_comparison result) }
{
    let mut text = [0u16; Text::ROOM];
    let mut table = [0u16; Table::ROOM];
    let size = presentation::load(book, &mut text, &mut table)?;
    let words = RelationWords {
        text: &text,
        table: &table,
        n: layout::count_of(&table),
    };
    comparison::compare_once(&words, size.letters, u, v, allowance)
}

// Makes one round from u, v and the front mark p, and writes the next ones at the starts of three lent buffers.
pub fn single_round(
    book: &[u8],
    u: &[u8],
    v: &[u8],
    p: &[u8],
    nu: &mut [u8],
    nv: &mut [u8],
    np: &mut [u8],
) -> Result<Round<Lengths>, Refusal>
    ensures { RoundOutcome.after (of_round result) nu.new nv.new np.new ≡ round_of book.now u.now v.now p.now nu.old nv.old np.old }
{
    let mut text = [0u16; Text::ROOM];
    let mut table = [0u16; Table::ROOM];
    let size = presentation::load(book, &mut text, &mut table)?;
    let words = RelationWords {
        text: &text,
        table: &table,
        n: layout::count_of(&table),
    };
    loaded_round(&words, size.letters, u, v, p, nu, nv, np)
}

// Writes the least word that is congruent to u into the part of a lent buffer from an offset on.
pub fn least_word(book: &[u8], u: &[u8], buffer: &mut [u8], offset: usize) -> Result<usize, Refusal>
    ensures { LeastAnswered book.now u.now buffer.old offset (WordOutcome.after (of_written_word result) buffer.new) }
{
    let mut text = [0u16; Text::ROOM];
    let mut table = [0u16; Table::ROOM];
    let size = presentation::load(book, &mut text, &mut table)?;
    let words = RelationWords {
        text: &text,
        table: &table,
        n: layout::count_of(&table),
    };
    loaded_least(&words, size.letters, u, buffer, offset)
}

// Writes what the program of document 01 prints for an input at the start of a lent buffer, which must have room for the longest output of all.
#[tactic(auto, using(answers::proofs::Laws::prints))]
pub fn print_program(input: &[u8], out: &mut [u8]) -> Result<usize, Refusal>
    ensures { OutputOutcome.after (of_printed result) out.new ≡ output_of input.now out.old }
{
    if out.len() < Output::MOST {
        return Err(Refusal::Narrow(0));
    }
    Ok(program::write_program(input, out))
}
