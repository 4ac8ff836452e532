// What opening, an addition and a removal leave in the store's bytes, in specs/, and that a good
// store stays good, in proofs/. There is no code here.
#![tactic(auto)]
