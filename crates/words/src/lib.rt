// Words over numbers: definitions and laws, with no code under them.
// What is shown of distinct words and families is told in crate `theorems`.
#![tactic(auto)]
