// Tickets: what one of any bytes says, and the writing of one.
#![tactic(auto)]

ghost use Rattle.std.specs.Prelude.{◌≡◌, ◌≤◌};
ghost use Rattle.words.specs.Writing.{over};
ghost use Rattle.limits.specs.Limits.{ticket_number_at};
ghost use Rattle.format.specs.Book.{byte, field};
ghost use Rattle.held.specs.Asked.{change_asked};
ghost use Rattle.held.specs.Tickets.{fields_of, ticket_bytes, count_in, record_in, change_in};
ghost use Rattle.tickets.specs.Tickets.{FieldsWritable, TicketWritable};

use held::Asked;
use holding::put_field;
use limits::Ticket;
use writing::put_bytes;

// The byte at a position, 0 where there is none.
fn byte_at(ticket: &[u8], at: usize) -> u8
    ensures { result ≡ byte ticket.now at }
{
    ticket.get(at).copied().unwrap_or(0)
}

// The two-byte field at a position, little-endian.
fn field_at(ticket: &[u8], at: usize) -> usize
    requires { at ≤ ticket_number_at }
    ensures { result ≡ field ticket.now at }
{
    usize::from(byte_at(ticket, at)) + 256 * usize::from(byte_at(ticket, at + 1))
}

// The count of changes.
pub fn count_of(ticket: &[u8]) -> usize
    ensures { result ≡ count_in ticket.now }
{
    field_at(ticket, Ticket::CHANGES_AT)
}

// The bytes of an addition, as a part of the ticket.
#[tactic(auto, using(crate::proofs::Laws::parts))]
pub fn record_of(ticket: &[u8]) -> &[u8]
    ensures { result.now ≡ record_in ticket.now }
{
    let start = Ticket::PREFIX.min(ticket.len());
    let end = start + field_at(ticket, Ticket::NUMBER_AT).min(ticket.len() - start);
    &ticket[start..end]
}

// The change that is asked for; the bytes of an addition are those of `record_of`.
#[tactic(auto, using(crate::proofs::Laws::kinds))]
pub fn asked_in(ticket: &[u8]) -> Asked
    ensures { change_asked result (record_in ticket.now) ≡ change_in ticket.now }
{
    let kind = field_at(ticket, Ticket::KIND_AT);
    if kind == Ticket::ADDITION {
        return Asked::Addition;
    }
    Asked::Withdrawal(field_at(ticket, Ticket::NUMBER_AT))
}

// Writes the three fields.
fn put_fields(changes: usize, kind: usize, number: usize, ticket: &mut [u8])
    requires { FieldsWritable changes kind number ticket.old }
    ensures { ticket.new ≡ over (fields_of changes kind number) ticket.old }
{
    put_field(changes as u16, ticket, Ticket::CHANGES_AT);
    put_field(kind as u16, ticket, Ticket::KIND_AT);
    put_field(number as u16, ticket, Ticket::NUMBER_AT);
}

// Writes a ticket of the change that is asked for at the start of a lent buffer.
#[tactic(auto, using(crate::proofs::Laws::writings))]
pub fn put_ticket(changes: usize, asked: Asked, bytes: &[u8], ticket: &mut [u8])
    requires { TicketWritable changes (change_asked asked bytes.now) ticket.old }
    ensures { ticket.new ≡ over (ticket_bytes changes (change_asked asked bytes.now)) ticket.old }
{
    match asked {
        Asked::Addition => {
            put_fields(changes, Ticket::ADDITION, bytes.len(), ticket);
            put_bytes(bytes, ticket, Ticket::PREFIX);
        }
        Asked::Withdrawal(i) => put_fields(changes, Ticket::WITHDRAWAL, i, ticket),
    }
}
