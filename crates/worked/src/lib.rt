// Held books worked out by hand: changes, proposals and postings, with what they give. specs/Changes.antt and specs/Tickets.antt are the tables; the functions here do
// nothing and carry it as theorems that the definitions of crate held give just this.
#![tactic(auto)]

ghost use Rattle.worked.specs.Changes.{Hold, examples};
ghost use Rattle.worked.specs.Tickets.{Shown, proposals, Given, postings};

// The worked examples of what changes give hold of their definition.
pub fn examples_hold()
    ensures { Hold examples }
{}

// Those of proposals hold, and those of postings.
pub fn proposed_examples_hold()
    ensures { Shown proposals }
{}

pub fn posted_examples_hold()
    ensures { Given postings }
{}
