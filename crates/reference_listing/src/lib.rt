// The list of the palindromes of a record: their number, and the k-th of them.
//
// Each end of the record is the first end of one palindrome at most, of the longest that ends there:
// the shorter ones begin it too, and so have ended before. So the list is gone through end by end,
// under any rule, and there are no more palindromes than letters.
//
// The functions are slow and plain: each is proved equal to a definition, so that it can be run.
#![tactic(auto)]

ghost use Rattle.std.specs.Prelude.{◌≡◌, [], length, get_or, MatchOption};
ghost use Rattle.palindromes.specs.Place.{first_place};
ghost use Rattle.palindromes.specs.Record.{palindromes};
ghost use Rattle.palindromes.specs.Record.{count as Record·count};
ghost use Rattle.mismatch.specs.Rule.{rule_of};
ghost use Rattle.reference_listing.specs.Listed.{new_at_end};

use reference_ends::longest_suffix;
use reference_places::{first_place, stands};

// The length of the palindrome whose first end is the end of w, 0 where there is none.
pub fn new_at_end(rule: &[u8], w: &[u8]) -> usize
    ensures { result ≡ length (new_at_end (rule_of rule.now) w.now) }
{
    let n = w.len();
    let l = longest_suffix(rule, w);
    if l == 0 || stands(&w[n - l..], &w[..n - 1]) {
        0
    } else {
        l
    }
}

// That palindrome, empty where there is none.
pub fn new_palindrome<'a>(rule: &[u8], w: &'a [u8]) -> &'a [u8]
    ensures { result.now ≡ new_at_end (rule_of rule.now) w.now }
{
    &w[w.len() - new_at_end(rule, w)..]
}

// The number of distinct palindromes.
pub fn count(rule: &[u8], s: &[u8]) -> usize
    ensures { result ≡ Record·count (rule_of rule.now) s.now }
{
    (1..=s.len())
        .filter(|e| new_at_end(rule, &s[..*e]) != 0)
        .count()
}

// The k-th palindrome of the list, where the list is not shorter.
fn nth<'a>(rule: &[u8], s: &'a [u8], k: usize) -> Option<&'a [u8]>
    ensures { MatchOption result (get_or (palindromes (rule_of rule.now) s.now) k [] ≡ []) (λ w. w.now ≡ get_or (palindromes (rule_of rule.now) s.now) k []) }
{
    (1..=s.len())
        .map(|e| new_palindrome(rule, &s[..e]))
        .filter(|w| !w.is_empty())
        .nth(k)
}

// The length of the k-th palindrome of the list, 0 where the list is shorter.
pub fn nth_length(rule: &[u8], s: &[u8], k: usize) -> usize
    ensures { result ≡ length (get_or (palindromes (rule_of rule.now) s.now) k []) }
{
    nth(rule, s, k).map_or(0, |w| w.len())
}

// The first place of the k-th palindrome of the list, 0 where the list is shorter.
pub fn nth_place(rule: &[u8], s: &[u8], k: usize) -> usize
    ensures { result ≡ first_place (get_or (palindromes (rule_of rule.now) s.now) k []) s.now }
{
    nth(rule, s, k).map_or(0, |w| first_place(w, s))
}
