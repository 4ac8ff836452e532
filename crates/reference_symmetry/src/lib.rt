// Words that equal their own reversal under a partner rule, which is lent as a table of partners:
// specs/Rule.antt of the crate mismatch.
//
// The functions are slow and plain: each is proved equal to a definition, so that it can be run.
#![tactic(auto)]

ghost use Rattle.std.specs.Prelude.{◌≡◌};
ghost use Rattle.palindromes.specs.Palindrome.{first_mismatch, is_symmetric, is_palindrome};
ghost use Rattle.mismatch.specs.Rule.{rule_of};

// Where w and its reversal disagree first: all of its pairs are compared, since the table may be any.
pub fn first_mismatch(rule: &[u8], w: &[u8]) -> usize
    ensures { result ≡ first_mismatch (rule_of rule.now) w.now }
{
    mismatch::first_mismatch(rule, w, w.len())
}

// Whether w equals its reversal, each letter replaced by its partner.
#[tactic(auto, unfolding(palindromes::specs::Palindrome::is_symmetric))]
pub fn is_symmetric(rule: &[u8], w: &[u8]) -> bool
    ensures { result ≡ is_symmetric (rule_of rule.now) w.now }
{
    first_mismatch(rule, w) == 0
}

// Whether w is a palindrome, and so not empty.
pub fn is_palindrome(rule: &[u8], w: &[u8]) -> bool
    ensures { result ≡ is_palindrome (rule_of rule.now) w.now }
{
    !w.is_empty() && is_symmetric(rule, w)
}
