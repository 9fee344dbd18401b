// What follows once the bytes of a new book are made: it is checked and its sheet written, and then it takes the place of the book that is held. A part for the entries of
// held books: a change that is made directly.
#![tactic(auto)]

ghost use Rattle.std.specs.Prelude.{◌≡◌, true, length};
ghost use Rattle.refusals.specs.declared.Refusal.TheVariants.{BookWorn};
ghost use Rattle.answers.specs.Answers.{of_verdict};
ghost use Rattle.held.specs.Held.{worn};
ghost use Rattle.held.specs.Changes.{settled, lastly, ChangeOutcome, made, change_of};
ghost use Rattle.held.specs.Asked.{change_asked};
ghost use Rattle.settling.specs.Settling.{answered, Settleable, Takeable};

use entries::{check_book, cut_sheet};
use held::Asked;
use holding::{changes_of, hold};
use limits::{Held, Sheet};
use refusals::Refusal;
use renewing::make_change;

// The refusal of a new book or of its sheet's room; else another refusal, which comes behind them. Nothing is written. It is not inlined, so that its arrays and
// those of the sheet are not on the stack at once.
#[tactic(auto, using(crate::proofs::Laws::lasts))]
#[inline(never)]
pub fn refuse_last(book: &[u8], sheet: &[u8], last: Refusal) -> Result<usize, Refusal>
    ensures { of_verdict result ≡ answered (lastly true last (settled (length sheet.now) book.now)) }
{
    let checked = check_book(book);
    let Ok(relations) = checked else {
        return checked;
    };
    if sheet.len() < Sheet::COLUMNS * (2 * relations) {
        return Err(Refusal::Narrow(0));
    }
    Err(last)
}

// Writes the sheet of a new book, worked out afresh, and, where that is not refused, holds the book in place of the old one.
#[tactic(auto, using(crate::proofs::Laws::places))]
fn take_place(book: &[u8], held: &mut [u8], sheet: &mut [u8]) -> Result<usize, Refusal>
    requires { Takeable book.now held.old }
    ensures { ChangeOutcome.after (of_verdict result) held.new sheet.new ≡ made held.old sheet.old (settled (length sheet.old) book.now) }
{
    let verdict = cut_sheet(book, sheet);
    let Ok(_) = verdict else {
        return verdict;
    };
    let changes = changes_of(held);
    hold(book, changes + 1, held);
    verdict
}

// The same, unless no more changes are taken.
fn settle(book: &[u8], held: &mut [u8], sheet: &mut [u8]) -> Result<usize, Refusal>
    requires { Settleable book.now held.old }
    ensures { ChangeOutcome.after (of_verdict result) held.new sheet.new ≡ made held.old sheet.old (lastly (worn held.old) BookWorn (settled (length sheet.old) book.now)) }
{
    let changes = changes_of(held);
    if Held::COUNTED <= changes {
        return refuse_last(book, sheet, Refusal::BookWorn);
    }
    take_place(book, held, sheet)
}

// Makes the change that is asked for.
#[tactic(auto, using(crate::proofs::Laws::changes))]
pub fn change_held(
    asked: Asked,
    held: &mut [u8],
    bytes: &[u8],
    sheet: &mut [u8],
) -> Result<usize, Refusal>
    ensures { ChangeOutcome.after (of_verdict result) held.new sheet.new ≡ change_of (change_asked asked bytes.now) held.old sheet.old }
{
    let mut fresh = [0u8; Held::BOOK];
    let n = make_change(asked, held, bytes, &mut fresh)?;
    settle(&fresh[..n], held, sheet)
}
