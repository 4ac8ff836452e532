// The reference functions for programs in other languages: each export is the function of that name in
// the crate reference, with its contract.
//
// Each answers a number of 64 bits; a truth value is 1 or 0. A slice is passed as its pointer and its
// length, and a partner rule is lent as a table of partners: specs/Rule.antt of the crate
// mismatch. Each contract is the inner function's. No function has a `requires`.
#![tactic(auto)]

ghost use Rattle.std.specs.Prelude.{◌≡◌, cond, [], length, get_or, drop};
ghost use Rattle.palindromes.specs.Palindrome.{first_mismatch, is_symmetric, is_palindrome};
ghost use Rattle.palindromes.specs.Place.{starts_with, frequency, first_place, stands, stands_once};
ghost use Rattle.palindromes.specs.Record.{palindromes, count, longest_length, longest_place, longest_suffix, longest_prefix};
ghost use Rattle.palindromes.specs.Node.{spelt, spelling_of, link_of};
ghost use Rattle.mismatch.specs.Rule.{rule_of};

#[unsafe(no_mangle)]
pub extern "C" fn reference_partner(rule: &[u8], x: u8) -> u64
    ensures { result ≡ rule_of rule.now x }
{
    reference::reference_partner(rule, x)
}

#[unsafe(no_mangle)]
pub extern "C" fn reference_first_mismatch(rule: &[u8], w: &[u8]) -> u64
    ensures { result ≡ first_mismatch (rule_of rule.now) w.now }
{
    reference::reference_first_mismatch(rule, w)
}

#[unsafe(no_mangle)]
pub extern "C" fn reference_is_symmetric(rule: &[u8], w: &[u8]) -> u64
    ensures { result ≡ cond (is_symmetric (rule_of rule.now) w.now) 1 0 }
{
    reference::reference_is_symmetric(rule, w)
}

#[unsafe(no_mangle)]
pub extern "C" fn reference_is_palindrome(rule: &[u8], w: &[u8]) -> u64
    ensures { result ≡ cond (is_palindrome (rule_of rule.now) w.now) 1 0 }
{
    reference::reference_is_palindrome(rule, w)
}

#[unsafe(no_mangle)]
pub extern "C" fn reference_starts_with(p: &[u8], s: &[u8], at: usize) -> u64
    ensures { result ≡ cond (starts_with p.now (drop at s.now)) 1 0 }
{
    reference::reference_starts_with(p, s, at)
}

#[unsafe(no_mangle)]
pub extern "C" fn reference_frequency(p: &[u8], s: &[u8]) -> u64
    ensures { result ≡ frequency p.now s.now }
{
    reference::reference_frequency(p, s)
}

#[unsafe(no_mangle)]
pub extern "C" fn reference_first_place(p: &[u8], s: &[u8]) -> u64
    ensures { result ≡ first_place p.now s.now }
{
    reference::reference_first_place(p, s)
}

#[unsafe(no_mangle)]
pub extern "C" fn reference_stands(p: &[u8], s: &[u8]) -> u64
    ensures { result ≡ cond (stands p.now s.now) 1 0 }
{
    reference::reference_stands(p, s)
}

#[unsafe(no_mangle)]
pub extern "C" fn reference_stands_once(p: &[u8], s: &[u8]) -> u64
    ensures { result ≡ cond (stands_once p.now s.now) 1 0 }
{
    reference::reference_stands_once(p, s)
}

#[unsafe(no_mangle)]
pub extern "C" fn reference_longest_suffix(rule: &[u8], s: &[u8]) -> u64
    ensures { result ≡ length (longest_suffix (rule_of rule.now) s.now) }
{
    reference::reference_longest_suffix(rule, s)
}

#[unsafe(no_mangle)]
pub extern "C" fn reference_longest_prefix(rule: &[u8], s: &[u8]) -> u64
    ensures { result ≡ length (longest_prefix (rule_of rule.now) s.now) }
{
    reference::reference_longest_prefix(rule, s)
}

#[unsafe(no_mangle)]
pub extern "C" fn reference_link_length(rule: &[u8], v: &[u8]) -> u64
    ensures { result ≡ length (spelling_of (link_of (rule_of rule.now) (spelt v.now))) }
{
    reference::reference_link_length(rule, v)
}

#[unsafe(no_mangle)]
pub extern "C" fn reference_count(rule: &[u8], s: &[u8]) -> u64
    ensures { result ≡ count (rule_of rule.now) s.now }
{
    reference::reference_count(rule, s)
}

#[unsafe(no_mangle)]
pub extern "C" fn reference_nth_length(rule: &[u8], s: &[u8], k: usize) -> u64
    ensures { result ≡ length (get_or (palindromes (rule_of rule.now) s.now) k []) }
{
    reference::reference_nth_length(rule, s, k)
}

#[unsafe(no_mangle)]
pub extern "C" fn reference_nth_place(rule: &[u8], s: &[u8], k: usize) -> u64
    ensures { result ≡ first_place (get_or (palindromes (rule_of rule.now) s.now) k []) s.now }
{
    reference::reference_nth_place(rule, s, k)
}

#[unsafe(no_mangle)]
pub extern "C" fn reference_longest_length(rule: &[u8], s: &[u8]) -> u64
    ensures { result ≡ longest_length (rule_of rule.now) s.now }
{
    reference::reference_longest_length(rule, s)
}

#[unsafe(no_mangle)]
pub extern "C" fn reference_longest_place(rule: &[u8], s: &[u8]) -> u64
    ensures { result ≡ longest_place (rule_of rule.now) s.now }
{
    reference::reference_longest_place(rule, s)
}
