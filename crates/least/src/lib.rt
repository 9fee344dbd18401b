// Least congruent words (document 01: least equal runs): definitions and laws, with no code under them.
// The theorems that everything rests on are told in crate `theorems`.
#![tactic(auto)]
