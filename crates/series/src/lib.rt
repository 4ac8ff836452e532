// Series of palindromes along the links of a table, and what may be kept with a row, in specs/, and their laws, in proofs/. There is no
// code here: the crate factorization cites both.
#![tactic(auto)]
