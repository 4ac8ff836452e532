// What a store carries of the lengths of its palindromes, once one of them comes or goes: how many there are of its
// length, and the largest length.
#![tactic(auto)]

ghost use Rattle.std.specs.Prelude.{◌≡◌, true, ◌+◌, ◌*◌, ◌≤◌, ◌<◌, length};
ghost use Rattle.palindromes.specs.Record.{count_of_length};
ghost use Rattle.store.specs.Good.{rule_of, Good};
ghost use Rattle.store.specs.Layout.{used_in, letters_in};
ghost use Rattle.store.specs.Writes.{writes, carried_writes};
ghost use Rattle.length_counts.specs.Steps.{LengthIn, Gained, Lowered, Without};

use store::lengths::to_stored;
use store::{header, rows};

// A length, how many palindromes have it, and the largest length of one.
#[derive(Clone, Copy)]
pub struct Carried {
    pub length: usize,
    pub count: usize,
    pub longest: usize,
}

// The largest length once a palindrome of length k has gone. If it was the only one of the largest length, the word
// inside it is a palindrome that stays: so the next is one letter shorter or two.
fn lowered(b: &[u8], k: usize) -> usize
    requires good { Good b.now }
    requires nonzero { 0 < count_of_length (rule_of b.now) k (letters_in b.now) }
    ensures { Lowered b.now k result }
{
    let longest = header::longest(b);
    if k < longest || 1 < rows::count_of_length(b, k) {
        longest
    } else if k < 2 {
        0
    } else if 0 < rows::count_of_length(b, k - 1) {
        k - 1
    } else {
        k - 2
    }
}

// Without the palindrome of row q.
pub fn without(b: &[u8], q: usize) -> Carried
    requires good { Good b.now }
    requires q_value { (used_in b.now q ≡ true) × (2 ≤ q) }
    ensures { Without b.now q result }
{
    let k = to_stored(rows::length_of(b, q)) - 1;
    Carried {
        length: k,
        count: rows::count_of_length(b, k) - 1,
        longest: lowered(b, k),
    }
}

// Puts these numbers into the store.
#[tactic(auto, unfolding(store::specs::Writes::writes))]
pub fn put(b: &mut [u8], carried: Carried)
    requires { 24 * (carried.length + 1) + 24 ≤ length b.old }
    ensures { b.new ≡ writes b.old (carried_writes carried.length carried.count carried.longest) }
{
    rows::put_count_of_length(b, carried.length, carried.count);
    header::set_longest(b, carried.longest);
}

// Counts a palindrome of the given length more.
pub fn gain(b: &mut [u8], length: i32)
    requires { LengthIn b.old length }
    ensures { Gained b.old length b.new }
{
    let k = to_stored(length) - 1;
    let count = rows::count_of_length(b, k) + 1;
    let longest = header::longest(b).max(k);
    put(
        b,
        Carried {
            length: k,
            count,
            longest,
        },
    );
}
