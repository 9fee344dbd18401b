// Pieces, C(4) and cuts: definitions and laws, with no code under them (document 003, section 1).
// What is shown of them is told in crate `theorems`.
#![tactic(auto)]
