// What a store must carry of the lengths of its palindromes, counted in an array of its own as the tour of the letters
// meets their rows: how many have length k at place k + 1, as it lies beside row k + 1 of the store, and the largest
// length at place 1.
#![tactic(auto)]

ghost use Rattle.std.specs.Prelude.{◌≡◌, ◌<◌, length, get_or};
ghost use Rattle.store.specs.Layout.{cell};
ghost use Rattle.audit_lengths.specs.Lengths.{Countable, Counted};

use store::{lengths, rows};

// Counts the palindrome of row q.
pub fn count_row(b: &[u8], carried: &mut [u16], q: usize)
    requires { Countable b.now carried.old q }
    ensures { Counted carried.old (cell b.now q 0) carried.new }
{
    let place = lengths::to_stored(rows::length_of(b, q));
    carried[place] += 1;
    let length = (place - 1) as u16;
    carried[1] = carried[1].max(length);
}

// What was counted at a place.
pub fn counted_at(carried: &[u16], place: usize) -> usize
    requires { place < length carried.now }
    ensures { result ≡ get_or carried.now place 0 }
{
    usize::from(carried[place])
}
