// The longest palindrome of the record: its length and its leftmost place.
ghost use Rattle.std.specs.Prelude.{◌≡◌};
ghost use Rattle.palindromes.specs.Record.{longest_length, longest_place};
ghost use Rattle.store.specs.Layout.{letters_in};
ghost use Rattle.store.specs.Good.{rule_of, Good};

use spelling::spelling_length;
use walk::replay::Replay;

// A length and a place, both 0 where the record has no palindrome.
#[derive(Clone, Copy)]
pub struct LongestAnswer {
    pub length: usize,
    pub place: usize,
}

// Reads the letters once. Each is the end of the longest palindrome that ends there; a strictly
// longer one than any before is the leftmost of its length.
pub fn longest(b: &[u8]) -> LongestAnswer
    requires { Good b.now }
    ensures length { result.length ≡ longest_length (rule_of b.now) (letters_in b.now) }
    ensures place { result.place ≡ longest_place (rule_of b.now) (letters_in b.now) }
{
    let mut length = 0;
    let mut place = 0;
    for (k, row) in Replay::new(b) {
        let here = spelling_length(b, row);
        if length < here {
            length = here;
            place = k + 1 - here;
        }
    }
    LongestAnswer { length, place }
}
