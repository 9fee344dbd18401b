// What a held book is, what loading and changing it give, and what proposing a change and posting it give. specs/Held.antt says what lies in its buffer, specs/Changes.antt
// and specs/Tickets.antt define the answers, and specs/Demands.antt and specs/Postings.antt say in words what is owed, which crate `theorems` has as theorems on these
// definitions.
#![tactic(auto)]

// A change that is asked for: an addition, whose record is handed on beside it, or the withdrawal of the relation of an index.
#[derive(Clone, Copy)]
pub enum Asked {
    Addition,
    Withdrawal(usize),
}
