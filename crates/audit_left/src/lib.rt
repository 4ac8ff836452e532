// The left end of the letters as the tour reads on at the right: the longest palindrome that begins them, the longest that
// begins them without the first, and whether the one stands in the other's letters. All three follow from the row of the
// longest palindrome that ends the letters, so no letter is read a second time for the left end.
#![tactic(auto)]

ghost use Rattle.std.specs.Prelude.{◌≡◌, cond, ◌||◌, ℕ, ◌+◌, ◌*◌, ◌≤◌, ◌<◌, eqb, pos, length};
ghost use Rattle.store.specs.Layout.{link_in};
ghost use Rattle.audit_left.specs.Left.{LeftNew};

use ends::Reach;
use store::rows;

// The row of the longest palindrome that begins k letters, if row `ends` holds the longest that ends them, which has the
// given length: that one if it is all of them, and else the one that began them without the last.
fn begins(size: i32, k: usize, ends: usize, before: usize) -> usize
    requires { k < 65536 }
    ensures { (n : ℕ) → size ≡ pos n → result ≡ cond (eqb n k) ends before }
{
    let all = k as i32;
    if size == all { ends } else { before }
}

// Whether the palindrome of `row`, which begins the letters, stands in them again: it did before, or now ends them. Inside a
// longer one that ends them it would have stood before, at that one's other end.
fn stands_again(ends: usize, row: usize, again: bool) -> bool
    ensures { result ≡ (eqb ends row || again) }
{
    ends == row || again
}

// The left end at a row q that was met before, of the longest palindrome that ends the letters with one more: it is neither
// all of them nor all but the first, so what begins the letters is what began them, with the first and without it.
pub fn left_known(q: usize, left: Reach) -> Reach
    ensures { (result.row ≡ left.row) × (result.short ≡ left.short) × (result.again ≡ (eqb q left.row || left.again)) }
{
    Reach {
        again: stands_again(q, left.row, left.again),
        ..left
    }
}

// The left end at a row q that is met for the first time, of the longest palindrome that ends the k + 1 letters then read. If
// that is all of them it stands once, and without the first letter they are a palindrome exactly if its link has one letter
// less. Else what begins the letters is what began them, and stands again if it did: it is not the new one.
pub fn left_new(b: &[u8], k: usize, q: usize, left: Reach) -> Reach
    requires { (24 * q + 24 ≤ length b.now) × (24 * link_in b.now q + 24 ≤ length b.now) × (k < 65535) }
    ensures { LeftNew b.now k q left result }
{
    let size = rows::length_of(b, q);
    let all = (k + 1) as i32;
    if size == all {
        let link = rows::link_of(b, q);
        let short = begins(rows::length_of(b, link), k, link, left.short);
        return Reach {
            row: q,
            short,
            again: false,
        };
    }
    Reach {
        short: begins(size, k, q, left.short),
        ..left
    }
}
