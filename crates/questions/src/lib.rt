// The questions about a good store's record and its rows. Each function says what its answer is in
// terms of the store's letters alone, but for row numbers, which are the store's own.
#![tactic(auto)]

pub mod record;
pub mod rows;
