// The longest palindrome of a record: its length, and its leftmost place. The list is gone through end
// by end, as the crate reference_listing does.
//
// The functions are slow and plain: each is proved equal to a definition, so that it can be run.
#![tactic(auto)]

ghost use Rattle.std.specs.Prelude.{◌≡◌};
ghost use Rattle.palindromes.specs.Record.{longest_length, longest_place};
ghost use Rattle.mismatch.specs.Rule.{rule_of};

use reference_listing::{new_at_end, new_palindrome};
use reference_places::first_place;

// The length of the longest palindrome, 0 where there is none.
pub fn longest_length(rule: &[u8], s: &[u8]) -> usize
    ensures { result ≡ longest_length (rule_of rule.now) s.now }
{
    (1..=s.len())
        .map(|e| new_at_end(rule, &s[..e]))
        .max()
        .unwrap_or(0)
}

// The leftmost place of a longest palindrome, 0 where there is none.
pub fn longest_place(rule: &[u8], s: &[u8]) -> usize
    ensures { result ≡ longest_place (rule_of rule.now) s.now }
{
    let longest = longest_length(rule, s);
    (1..=s.len())
        .map(|e| new_palindrome(rule, &s[..e]))
        .filter(|w| !w.is_empty())
        .filter(|w| w.len() == longest)
        .map(|w| first_place(w, s))
        .min()
        .unwrap_or(0)
}
