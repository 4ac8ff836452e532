// The comparison of a word with its reversal under a partner rule, which is lent as a table of
// partners: specs/Rule.antt.
#![tactic(auto)]

ghost use Rattle.std.specs.Prelude.{◌≡◌, ◌≤◌, length};
ghost use Rattle.palindromes.specs.Mismatch.{Mismatch};
ghost use Rattle.mismatch.specs.Rule.{rule_of};

// The partner of the byte x.
pub fn partner(rule: &[u8], x: u8) -> u8
    ensures { result ≡ rule_of rule.now x }
{
    rule.get(usize::from(x)).copied().unwrap_or(x)
}

// The first of the outermost pairs of w whose letters are not partners, counted from 1, and 0 where
// all are. Half of the pairs decide under a rule that undoes itself; any other rule needs all.
pub fn first_mismatch(rule: &[u8], w: &[u8], pairs: usize) -> usize
    requires { pairs ≤ length w.now }
    ensures { Mismatch (rule_of rule.now) w.now pairs result }
{
    for k in 0..pairs {
        if w[k] != partner(rule, w[w.len() - 1 - k]) {
            return k + 1;
        }
    }
    0
}
