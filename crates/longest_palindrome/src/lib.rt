// The longest palindrome of a good store's record, of all and at an end.
#![tactic(auto)]

pub mod at_end;
pub mod whole;
