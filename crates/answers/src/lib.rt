// What the public entries answer: a `Result` with what the entry gives, or its refusal. specs/Answers.antt gives document 01's number and values for each case,
// specs/Entries.antt defines the answer of every entry, and specs/Demands.antt spells out the demands, of which demand 2 and those on least words are theorems on these
// definitions (crate `theorems`). Definitions alone, with no code under them.
#![tactic(auto)]
