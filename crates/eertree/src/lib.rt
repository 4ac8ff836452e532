// The laws of tables that show an eertree, in proofs/: how a table follows its record when a letter
// is added or removed at an end. There is no code here.
#![tactic(auto)]
