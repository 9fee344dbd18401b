// What an operation on a held book asks for, and the calls that answer it, with the first bytes of buffers lent: the loading of a book, its changes, their
// proposals and the postings of tickets.
#![tactic(auto)]

ghost use Rattle.std.specs.Prelude.{◌≡◌, ◌+◌, ◌≤◌, ◌<◌, get_or, replicate, slice_set};
ghost use Rattle.lending.specs.Rooms.{Roomy};

use fields::{FILL, Fields};
use limits::{Held, Ticket};
use refusals::Refusal;

// What an operation asks for.
#[derive(Clone, Copy, PartialEq, Eq)]
pub enum Operation {
    Change(Change),
    Proposal(Proposal),
}

// A change that is made.
#[derive(Clone, Copy, PartialEq, Eq)]
pub enum Change {
    Addition,
    Withdrawal,
    Posting,
}

// A change that is proposed.
#[derive(Clone, Copy, PartialEq, Eq)]
pub enum Proposal {
    Addition,
    Withdrawal,
}

// By the word that an operation begins with. Any word but these four asks for a withdrawal.
impl From<&[u8]> for Operation {
    ghost use Rattle.lending.specs.Operations.{Asks};

    ghost from_gives = { λ word operation. Asks word.now operation };

    fn from(word: &[u8]) -> Operation {
        match word {
            b"add" => Operation::Change(Change::Addition),
            b"post" => Operation::Change(Change::Posting),
            b"plan-add" => Operation::Proposal(Proposal::Addition),
            b"plan-drop" => Operation::Proposal(Proposal::Withdrawal),
            _ => Operation::Change(Change::Withdrawal),
        }
    }
}

// How many tickets a line keeps: as many as lie in as many bytes as the longest line has.
pub const MOST_TICKETS: usize = fields::LARGE / Ticket::ROOM;

// The tickets that the proposals of a line gave, in their order, each in the room of one. It keeps as many as it has room for.
#[derive(Drop)]
pub struct Tickets {
    pub rooms: [[u8; Ticket::ROOM]; MOST_TICKETS],
    pub given: usize,
}

impl Tickets {
    // No ticket was given so far.
    pub fn new() -> Self
        ensures given { result.given ≡ 0 }
        ensures rooms { result.rooms ≡ replicate MOST_TICKETS (replicate Ticket.ROOM FILL) }
    {
        Tickets {
            rooms: [[FILL; Ticket::ROOM]; MOST_TICKETS],
            given: 0,
        }
    }

    // The ticket of a number, counted from 0. One that was not given is all aa.
    fn ticket(&self, number: usize) -> [u8; Ticket::ROOM]
        ensures { result ≡ get_or self.now.rooms number (replicate Ticket.ROOM FILL) }
    {
        self.rooms
            .get(number)
            .copied()
            .unwrap_or([FILL; Ticket::ROOM])
    }

    // Keeps a ticket behind those that were given, where there is room for it.
    pub fn keep(&mut self, ticket: &[u8; Ticket::ROOM])
        ensures kept { self.old.given < MOST_TICKETS → self.new ≡ record { rooms = slice_set self.old.rooms self.old.given ticket.now; given = self.old.given + 1 } }
        ensures full { MOST_TICKETS ≤ self.old.given → self.new ≡ self.old }
    {
        if self.given < MOST_TICKETS {
            self.rooms[self.given] = *ticket;
            self.given += 1;
        }
    }
}

// Loads a book into the first bytes of a buffer.
pub fn lend_load(book: &[u8], held: &mut [u8]) -> Result<usize, Refusal>
    requires { Roomy held.old }
{
    heldbook::load_held(book, &mut held[..Held::ROOM])
}

// The change that an operation asks for.
pub fn lend_change(
    change: Change,
    operation: Fields<'_>,
    held: &mut [u8],
    tickets: &Tickets,
    sheet: &mut [u8],
) -> Result<usize, Refusal>
    requires { Roomy held.old }
{
    let held = &mut held[..Held::ROOM];
    match change {
        Change::Addition => {
            let mut room = rooms::room::<{ fields::LARGE }>(0);
            let n = operation.put(1, &mut room);
            heldbook::add_relation(held, &room[..n], sheet)
        }
        Change::Withdrawal => {
            heldbook::withdraw_relation(held, operation.number(1) as usize, sheet)
        }
        Change::Posting => {
            let ticket = tickets.ticket(operation.number(1) as usize);
            heldbook::post_ticket(held, &ticket, sheet)
        }
    }
}

// The proposal that an operation asks for, with a ticket's buffer that has just its room.
pub fn lend_proposal(
    proposal: Proposal,
    operation: Fields<'_>,
    held: &[u8],
    sheet: &mut [u8],
    ticket: &mut [u8],
) -> Result<usize, Refusal>
    requires { Roomy held.now }
{
    let held = &held[..Held::ROOM];
    match proposal {
        Proposal::Addition => {
            let mut room = rooms::room::<{ fields::LARGE }>(0);
            let n = operation.put(1, &mut room);
            heldbook::propose_addition(held, &room[..n], sheet, ticket)
        }
        Proposal::Withdrawal => {
            heldbook::propose_withdrawal(held, operation.number(1) as usize, sheet, ticket)
        }
    }
}
