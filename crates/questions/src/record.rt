// The record as a whole: how many letters, how many palindromes, and the letter at a place.
ghost use Rattle.std.specs.Prelude.{◌≡◌, ◌<◌, length, get_or};
ghost use Rattle.palindromes.specs.Record.{count};
ghost use Rattle.store.specs.Layout.{letters_in};
ghost use Rattle.store.specs.Good.{rule_of, Good};

use store::header;
use walk::frame::frame_of;

// How many letters stand.
#[tactic(auto, unfolding(palindromes::specs::Refusal::store_size, store::specs::Layout::letters_in))]
pub fn length(b: &[u8]) -> usize
    requires { Good b.now }
    ensures { result ≡ length (letters_in b.now) }
{
    header::size(b)
}

// How many distinct palindromes stand.
#[tactic(auto, unfolding(palindromes::specs::Refusal::store_size))]
pub fn count(b: &[u8]) -> usize
    requires { Good b.now }
    ensures { result ≡ count (rule_of b.now) (letters_in b.now) }
{
    header::count(b)
}

// The letter at place i, counted from 0 at the left.
#[tactic(auto, unfolding(palindromes::specs::Refusal::store_size, store::specs::Layout::letters_in))]
pub fn letter(b: &[u8], i: usize) -> u8
    requires good { Good b.now }
    requires i_in_bounds { i < length (letters_in b.now) }
    ensures { result ≡ get_or (letters_in b.now) i 0 }
{
    let base = frame_of(b).base;
    b[base + i]
}
