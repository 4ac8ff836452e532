// The codes of uncertain bases, the choices that a text of them leaves and its two longest lengths, in
// specs/, and their laws, in proofs/. There is no code here: the crates above cite both.
#![tactic(auto)]
