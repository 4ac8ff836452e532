// The known answers as answers of the exported calls: what is claimed, in specs/, and its proof, in
// proofs/. There is no code here: it speaks of calls that keep the contracts of the exported ones.
#![tactic(auto)]
