// The removal of a prefix (document 01: taking a front off). specs/Removal.antt defines its answer, specs/Demands.antt says in words what is owed, and crate `theorems` tells
// what follows for its callers.
#![tactic(auto)]
