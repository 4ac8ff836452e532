// That every store is good or not, in proofs/: the outcome of a call is defined for every store.
// There is no code here.
#![tactic(auto)]
