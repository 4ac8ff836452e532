// The starred sittings of document 01 as one table, and other known answers as tables of their own, in
// specs/, and the one claim over the whole of each, in proofs/. There is no code here.
#![tactic(auto)]
