// Definitions of palindromes and eertrees, in specs/, and their laws, in proofs/, for any
// self-inverse partner rule, and the two rules that records are read by. There is no code here: the
// crates above cite both.
#![tactic(auto)]
