// The longest palindrome at each end of a record, and the suffix link of a palindrome.
//
// The functions are slow and plain: each is proved equal to a definition, so that it can be run.
#![tactic(auto)]

ghost use Rattle.std.specs.Prelude.{◌≡◌, length};
ghost use Rattle.palindromes.specs.Record.{longest_suffix, longest_prefix};
ghost use Rattle.palindromes.specs.Node.{spelt, spelling_of, link_of};
ghost use Rattle.mismatch.specs.Rule.{rule_of};

use reference_symmetry::is_symmetric;

// The length of the longest palindrome at the right end, 0 where there is none.
pub fn longest_suffix(rule: &[u8], s: &[u8]) -> usize
    ensures { result ≡ length (longest_suffix (rule_of rule.now) s.now) }
{
    for start in 0..s.len() {
        if is_symmetric(rule, &s[start..]) {
            return s.len() - start;
        }
    }
    0
}

// The length of the longest palindrome at the left end, 0 where there is none. It shares no more with
// longest_suffix than the loop: what is tested is another part.
pub fn longest_prefix(rule: &[u8], s: &[u8]) -> usize
    ensures { result ≡ length (longest_prefix (rule_of rule.now) s.now) }
{
    for left_out in 0..s.len() {
        let end = s.len() - left_out;
        if is_symmetric(rule, &s[..end]) {
            return end;
        }
    }
    0
}

// The length of what the suffix link of v spells: the longest palindrome that ends v and is not v.
pub fn link_length(rule: &[u8], v: &[u8]) -> usize
    ensures { result ≡ length (spelling_of (link_of (rule_of rule.now) (spelt v.now))) }
{
    if v.is_empty() {
        0
    } else {
        longest_suffix(rule, &v[1..])
    }
}
