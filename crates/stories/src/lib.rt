// The answering of a line on a held book: a book is loaded, and then comes one operation after the other, a change, a proposal or a posting, each
// answered by a word. Before each operation the sheet is filled with aa, and so is the buffer of a proposal's ticket; `touched` stands before an
// answer that came with a change of a byte which it must keep. A proposal is lent the held book as one that is only read, so that its bytes need no
// look.
#![tactic(auto)]

use fields::{Fields, behind, front, is_kept};
use lending::{Change, Operation, Proposal, Tickets, lend_change, lend_load, lend_proposal};
use limits::{Held, Relation, Sheet, Ticket};
use refusals::Refusal;
use std::io;
use std::io::Write;

// Loads the book of a line, and does what its fields behind that ask for.
pub fn answer_held<W: Write>(out: &mut W, line: &[u8], book: &[u8]) -> io::Result<()> {
    let mut held = rooms::room::<{ fields::ROOM }>(fields::FILL);
    let loaded = lend_load(book, &mut held);
    match loaded {
        Err(refusal) => {
            print_touched(out, is_kept(&held))?;
            print_refused(out, refusal)?;
        }
        Ok(relations) => {
            print_touched(out, is_kept(behind(&held, held_length(book))))?;
            print_number(out, b"accepted:", relations)?;
            answer_operations(out, line, &mut held)?;
        }
    }
    out.write_all(b"\n")
}

// Answers the operations of a line, which are its fields behind the book.
fn answer_operations<W: Write>(
    out: &mut W,
    line: &[u8],
    held: &mut [u8; fields::ROOM],
) -> io::Result<()> {
    let mut tickets = Tickets::new();
    for text in line.split(|&byte| byte == b' ').skip(2) {
        out.write_all(b" ")?;
        answer_operation(out, Fields::new(text, b':'), held, &mut tickets)?;
    }
    Ok(())
}

// Answers an operation by the word that it begins with.
fn answer_operation<W: Write>(
    out: &mut W,
    operation: Fields<'_>,
    held: &mut [u8; fields::ROOM],
    tickets: &mut Tickets,
) -> io::Result<()> {
    match Operation::from(operation.field(0)) {
        Operation::Change(change) => answer_change(out, change, operation, held, tickets),
        Operation::Proposal(proposal) => answer_proposal(out, proposal, operation, held, tickets),
    }
}

// Makes a change, and prints its answer.
fn answer_change<W: Write>(
    out: &mut W,
    change: Change,
    operation: Fields<'_>,
    held: &mut [u8; fields::ROOM],
    tickets: &Tickets,
) -> io::Result<()> {
    let before = *held;
    let mut sheet = rooms::room::<{ fields::ROOM }>(fields::FILL);
    let n = operation.lent(2, &sheet);
    let verdict = lend_change(change, operation, held, tickets, &mut sheet[..n]);
    print_change(out, verdict, &before, held, &sheet)
}

// Makes a proposal, prints its answer, and keeps the ticket that it gives.
fn answer_proposal<W: Write>(
    out: &mut W,
    proposal: Proposal,
    operation: Fields<'_>,
    held: &[u8; fields::ROOM],
    tickets: &mut Tickets,
) -> io::Result<()> {
    let mut sheet = rooms::room::<{ fields::ROOM }>(fields::FILL);
    let n = operation.lent(2, &sheet);
    let mut ticket = rooms::room::<{ Ticket::ROOM }>(fields::FILL);
    let verdict = lend_proposal(proposal, operation, held, &mut sheet[..n], &mut ticket);
    match verdict {
        Err(refusal) => {
            print_touched(out, is_kept(&sheet) && is_kept(&ticket))?;
            print_refused(out, refusal)
        }
        Ok(relations) => {
            let length = ticket_length(proposal, operation);
            print_touched(
                out,
                is_kept(behind(&sheet, sheet_length(relations)))
                    && is_kept(behind(&ticket, length)),
            )?;
            print_accepted(out, relations, &sheet)?;
            tickets.keep(&ticket);
            Ok(())
        }
    }
}

// How many bytes the ticket of a proposal has: those of its fields, and of an addition those of the record.
fn ticket_length(proposal: Proposal, operation: Fields<'_>) -> usize {
    match proposal {
        Proposal::Addition => Ticket::PREFIX + operation.field(1).len() / 2,
        Proposal::Withdrawal => Ticket::PREFIX,
    }
}

// A change's answer, with what its buffers were and are.
fn print_change<W: Write>(
    out: &mut W,
    verdict: Result<usize, Refusal>,
    before: &[u8],
    held: &[u8],
    sheet: &[u8],
) -> io::Result<()> {
    match verdict {
        Err(refusal) => {
            print_touched(out, is_kept(sheet) && before == held)?;
            print_refused(out, refusal)
        }
        Ok(relations) => {
            let length = held_length(heldbook::book_of(held));
            print_touched(
                out,
                is_kept(behind(sheet, sheet_length(relations)))
                    && behind(before, length) == behind(held, length),
            )?;
            print_accepted(out, relations, sheet)
        }
    }
}

// How many bytes a held book has with a book in it.
fn held_length(book: &[u8]) -> usize {
    Held::PREFIX + book.len().min(Held::BOOK)
}

// How many bytes the sheet of so many relations has.
fn sheet_length(relations: usize) -> usize {
    Sheet::COLUMNS * (2 * relations.min(Relation::MOST))
}

// Prints a number of relations and their sheet.
fn print_accepted<W: Write>(out: &mut W, relations: usize, sheet: &[u8]) -> io::Result<()> {
    print_number(out, b"accepted:", relations)?;
    out.write_all(b":")?;
    printing::print_bytes(out, front(sheet, sheet_length(relations)))
}

// Tells that a byte was changed that must be kept.
fn print_touched<W: Write>(out: &mut W, kept: bool) -> io::Result<()> {
    if kept {
        return Ok(());
    }
    out.write_all(b"touched:")
}

// Prints a word and a number.
fn print_number<W: Write>(out: &mut W, word: &[u8], n: usize) -> io::Result<()> {
    out.write_all(word)?;
    write!(out, "{n}")
}

// Prints a refusal: its number and its place.
fn print_refused<W: Write>(out: &mut W, refusal: Refusal) -> io::Result<()> {
    let numbered = refusals::Numbered::from(refusal);
    print_number(out, b"refused:", usize::from(numbered.number))?;
    print_number(out, b":", numbered.place)
}
