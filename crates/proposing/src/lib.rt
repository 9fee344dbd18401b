// What follows once the bytes of a new book are made that is only proposed: it is checked and its sheet written, and a ticket is given for the change that leads to it. A
// part for the entries of held books: a change that is proposed.
#![tactic(auto)]

ghost use Rattle.std.specs.Prelude.{◌≡◌, ltb, length};
ghost use Rattle.limits.specs.Limits.{ticket_room, ticket_buffer};
ghost use Rattle.refusals.specs.declared.Refusal.TheVariants.{Narrow};
ghost use Rattle.answers.specs.Answers.{of_verdict};
ghost use Rattle.held.specs.Changes.{settled, lastly};
ghost use Rattle.held.specs.Asked.{change_asked};
ghost use Rattle.held.specs.Tickets.{ProposalOutcome, shown, propose_of};
ghost use Rattle.proposing.specs.Proposing.{Showable};

use entries::cut_sheet;
use held::Asked;
use holding::changes_of;
use limits::{Held, Ticket};
use refusals::Refusal;
use renewing::make_change;
use settling::refuse_last;
use tickets::put_ticket;

// Writes the sheet of a new book, worked out afresh, and, where that is not refused, the ticket of the change that leads to it.
#[tactic(auto, using(crate::proofs::Laws::shows))]
fn show(
    book: &[u8],
    asked: Asked,
    held: &[u8],
    bytes: &[u8],
    sheet: &mut [u8],
    ticket: &mut [u8],
) -> Result<usize, Refusal>
    requires { Showable (change_asked asked bytes.now) held.now }
    ensures { ProposalOutcome.after (of_verdict result) sheet.new ticket.new ≡ shown (change_asked asked bytes.now) held.now sheet.old ticket.old (lastly (ltb (length ticket.old) ticket_room) (Narrow ticket_buffer) (settled (length sheet.old) book.now)) }
{
    if ticket.len() < Ticket::ROOM {
        return refuse_last(book, sheet, Refusal::Narrow(Ticket::BUFFER));
    }
    let written = cut_sheet(book, sheet);
    let Ok(_) = written else {
        return written;
    };
    put_ticket(changes_of(held), asked, bytes, ticket);
    written
}

// Shows what the change that is asked for would lead to, and gives a ticket for it.
#[tactic(auto, using(crate::proofs::Laws::proposals))]
pub fn propose_change(
    asked: Asked,
    held: &[u8],
    bytes: &[u8],
    sheet: &mut [u8],
    ticket: &mut [u8],
) -> Result<usize, Refusal>
    ensures { ProposalOutcome.after (of_verdict result) sheet.new ticket.new ≡ propose_of (change_asked asked bytes.now) held.now sheet.old ticket.old }
{
    let mut fresh = [0u8; Held::BOOK];
    let n = make_change(asked, held, bytes, &mut fresh)?;
    show(&fresh[..n], asked, held, bytes, sheet, ticket)
}
