// The reference functions as numbers of 64 bits, for programs in other languages: slow and plain, each
// proved equal to an executable definition of the crate palindromes, so that the definitions can be run.
//
// A truth value is 1 or 0. A partner rule is lent as a table of partners: specs/Rule.antt of the crate
// mismatch. Each contract is the inner function's. No function has a `requires`. The crate reference_c
// exports them.
#![tactic(auto)]

ghost use Rattle.std.specs.Prelude.{◌≡◌, cond, [], length, get_or, drop};
ghost use Rattle.palindromes.specs.Palindrome.{first_mismatch, is_symmetric, is_palindrome};
ghost use Rattle.palindromes.specs.Place.{starts_with, frequency, first_place, stands, stands_once};
ghost use Rattle.palindromes.specs.Record.{palindromes, count, longest_length, longest_place, longest_suffix, longest_prefix};
ghost use Rattle.palindromes.specs.Node.{spelt, spelling_of, link_of};
ghost use Rattle.mismatch.specs.Rule.{rule_of};

pub fn reference_partner(rule: &[u8], x: u8) -> u64
    ensures { result ≡ rule_of rule.now x }
{
    mismatch::partner(rule, x) as u64
}

pub fn reference_first_mismatch(rule: &[u8], w: &[u8]) -> u64
    ensures { result ≡ first_mismatch (rule_of rule.now) w.now }
{
    reference_symmetry::first_mismatch(rule, w) as u64
}

pub fn reference_is_symmetric(rule: &[u8], w: &[u8]) -> u64
    ensures { result ≡ cond (is_symmetric (rule_of rule.now) w.now) 1 0 }
{
    u64::from(reference_symmetry::is_symmetric(rule, w))
}

pub fn reference_is_palindrome(rule: &[u8], w: &[u8]) -> u64
    ensures { result ≡ cond (is_palindrome (rule_of rule.now) w.now) 1 0 }
{
    u64::from(reference_symmetry::is_palindrome(rule, w))
}

pub fn reference_starts_with(p: &[u8], s: &[u8], at: usize) -> u64
    ensures { result ≡ cond (starts_with p.now (drop at s.now)) 1 0 }
{
    u64::from(reference_places::starts_with(p, s, at))
}

pub fn reference_frequency(p: &[u8], s: &[u8]) -> u64
    ensures { result ≡ frequency p.now s.now }
{
    reference_places::frequency(p, s) as u64
}

pub fn reference_first_place(p: &[u8], s: &[u8]) -> u64
    ensures { result ≡ first_place p.now s.now }
{
    reference_places::first_place(p, s) as u64
}

pub fn reference_stands(p: &[u8], s: &[u8]) -> u64
    ensures { result ≡ cond (stands p.now s.now) 1 0 }
{
    u64::from(reference_places::stands(p, s))
}

pub fn reference_stands_once(p: &[u8], s: &[u8]) -> u64
    ensures { result ≡ cond (stands_once p.now s.now) 1 0 }
{
    u64::from(reference_places::stands_once(p, s))
}

pub fn reference_longest_suffix(rule: &[u8], s: &[u8]) -> u64
    ensures { result ≡ length (longest_suffix (rule_of rule.now) s.now) }
{
    reference_ends::longest_suffix(rule, s) as u64
}

pub fn reference_longest_prefix(rule: &[u8], s: &[u8]) -> u64
    ensures { result ≡ length (longest_prefix (rule_of rule.now) s.now) }
{
    reference_ends::longest_prefix(rule, s) as u64
}

pub fn reference_link_length(rule: &[u8], v: &[u8]) -> u64
    ensures { result ≡ length (spelling_of (link_of (rule_of rule.now) (spelt v.now))) }
{
    reference_ends::link_length(rule, v) as u64
}

pub fn reference_count(rule: &[u8], s: &[u8]) -> u64
    ensures { result ≡ count (rule_of rule.now) s.now }
{
    reference_listing::count(rule, s) as u64
}

pub fn reference_nth_length(rule: &[u8], s: &[u8], k: usize) -> u64
    ensures { result ≡ length (get_or (palindromes (rule_of rule.now) s.now) k []) }
{
    reference_listing::nth_length(rule, s, k) as u64
}

pub fn reference_nth_place(rule: &[u8], s: &[u8], k: usize) -> u64
    ensures { result ≡ first_place (get_or (palindromes (rule_of rule.now) s.now) k []) s.now }
{
    reference_listing::nth_place(rule, s, k) as u64
}

pub fn reference_longest_length(rule: &[u8], s: &[u8]) -> u64
    ensures { result ≡ longest_length (rule_of rule.now) s.now }
{
    reference_longest::longest_length(rule, s) as u64
}

pub fn reference_longest_place(rule: &[u8], s: &[u8]) -> u64
    ensures { result ≡ longest_place (rule_of rule.now) s.now }
{
    reference_longest::longest_place(rule, s) as u64
}
