// What loading a book gives and what its cut sheet says: definitions that the public contracts name, with no code under them.
#![tactic(auto)]
