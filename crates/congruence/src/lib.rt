// Congruence of words, the rows and the theorem: definitions and laws, with no code under them.
// The theorems that everything rests on are told in crate `theorems`.
#![tactic(auto)]
