// The public entries of held books: what a customer calls to load one, to change it, to propose a change and post it, and to have its book back. None has a `requires`;
// each promises that its answer and its lent buffers equal a definition's (crate held, specs/Changes.antt and specs/Tickets.antt), for every content of the buffers. What
// is owed in words is in crate held, specs/Demands.antt and specs/Postings.antt.
#![tactic(auto)]

ghost use Rattle.std.specs.Prelude.{◌≡◌};
ghost use Rattle.answers.specs.Answers.{of_verdict};
ghost use Rattle.held.specs.Held.{book_in, book_start, changes_told};
ghost use Rattle.held.specs.Changes.{LoadOutcome, load_of, addition, withdrawal, ChangeOutcome, change_of};
ghost use Rattle.held.specs.Tickets.{ProposalOutcome, propose_of, post_of};

use entries::check_book;
use held::Asked;
use holding::hold;
use limits::Held;
use proposing::propose_change;
use refusals::Refusal;
use settling::change_held;

// Loads a book into the lent buffer of a held book.
#[tactic(auto, using(crate::proofs::Laws::loads))]
pub fn load_held(book: &[u8], held: &mut [u8]) -> Result<usize, Refusal>
    ensures { LoadOutcome.after (of_verdict result) held.new ≡ load_of book.now held.old }
{
    let checked = check_book(book);
    let Ok(_) = checked else {
        return checked;
    };
    if held.len() < Held::ROOM {
        return Err(Refusal::Narrow(Held::BUFFER));
    }
    hold(book, 0, held);
    checked
}

// The book of a held book: the part of its buffer that is the book's bytes.
pub fn book_of(held: &[u8]) -> &[u8]
    ensures { result.now ≡ book_in held.now }
{
    holding::book_of(held)
}

// Where in the buffer it begins, for callers that take a place and a length.
pub fn book_start(held: &[u8]) -> usize
    ensures { result ≡ book_start held.now }
{
    holding::book_start(held)
}

// The count of changes since a held book was loaded.
pub fn changes_of(held: &[u8]) -> usize
    ensures { result ≡ changes_told held.now }
{
    holding::changes_of(held)
}

// Adds a relation, given as one record, at the end of a held book, and writes the new sheet.
pub fn add_relation(held: &mut [u8], bytes: &[u8], sheet: &mut [u8]) -> Result<usize, Refusal>
    ensures { ChangeOutcome.after (of_verdict result) held.new sheet.new ≡ change_of (addition bytes.now) held.old sheet.old }
{
    change_held(Asked::Addition, held, bytes, sheet)
}

// Withdraws the relation of an index from a held book, and writes the new sheet.
pub fn withdraw_relation(held: &mut [u8], i: usize, sheet: &mut [u8]) -> Result<usize, Refusal>
    ensures { ChangeOutcome.after (of_verdict result) held.new sheet.new ≡ change_of (withdrawal i) held.old sheet.old }
{
    change_held(Asked::Withdrawal(i), held, b"", sheet)
}

// Proposes the addition of a relation: writes the sheet that it would lead to, and a ticket for it. The held book is only read.
pub fn propose_addition(
    held: &[u8],
    bytes: &[u8],
    sheet: &mut [u8],
    ticket: &mut [u8],
) -> Result<usize, Refusal>
    ensures { ProposalOutcome.after (of_verdict result) sheet.new ticket.new ≡ propose_of (addition bytes.now) held.now sheet.old ticket.old }
{
    propose_change(Asked::Addition, held, bytes, sheet, ticket)
}

// Proposes the withdrawal of the relation of an index, likewise.
pub fn propose_withdrawal(
    held: &[u8],
    i: usize,
    sheet: &mut [u8],
    ticket: &mut [u8],
) -> Result<usize, Refusal>
    ensures { ProposalOutcome.after (of_verdict result) sheet.new ticket.new ≡ propose_of (withdrawal i) held.now sheet.old ticket.old }
{
    propose_change(Asked::Withdrawal(i), held, b"", sheet, ticket)
}

// Posts a ticket: makes its change, and writes the new sheet.
#[tactic(auto, using(crate::proofs::Laws::posts))]
pub fn post_ticket(held: &mut [u8], ticket: &[u8], sheet: &mut [u8]) -> Result<usize, Refusal>
    ensures { ChangeOutcome.after (of_verdict result) held.new sheet.new ≡ post_of ticket.now held.old sheet.old }
{
    let changes = holding::changes_of(held);
    if tickets::count_of(ticket) != changes {
        return Err(Refusal::StaleTicket);
    }
    if Held::COUNTED <= changes {
        return Err(Refusal::BookWorn);
    }
    let asked = tickets::asked_in(ticket);
    let bytes = tickets::record_of(ticket);
    change_held(asked, held, bytes, sheet)
}
