// Demand 1 as a theorem: what is claimed of every call on every store, in specs/, and its proof, in
// proofs/. There is no code here: it speaks of calls that keep the contracts of the exported ones.
#![tactic(auto)]
