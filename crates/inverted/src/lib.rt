// What is so of inverted records alone, of records without a repeat, and of a store whose reading is
// changed, as laws in proofs/. There is no code here: the laws speak of good stores and of what their
// calls come to.
#![tactic(auto)]
