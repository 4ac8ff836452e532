// A change of the reading: the letters of a record are set aside, the store is opened anew in the other
// reading and with the same capacity, and the letters join it again at the right, in order.
#![tactic(auto)]

ghost use Rattle.std.specs.Prelude.{◌≡◌, ◌+◌, ◌≤◌, length, take, drop};
ghost use Rattle.palindromes.specs.End.{at_right};
ghost use Rattle.palindromes.specs.Reading.{reading_number};
ghost use Rattle.store.specs.Good.{Good};
ghost use Rattle.store.specs.Layout.{capacity_in, letters_in};
ghost use Rattle.opening.specs.Ways.{way_of};
ghost use Rattle.transitions.specs.Opening.{opened};
ghost use Rattle.transitions.specs.Turning.{after_additions, turned};

use filling::fill;
use opening::{Reading, open, reading_number};
use store::header;
use store::letters::Side;

// The n letters at `base`, at the front of as many places as a record may have.
fn letters_at(b: &[u8], base: usize, n: usize) -> [u8; 1024]
    requires { (n ≤ 1024) × (base + n ≤ length b.now) }
    ensures { (length result ≡ 1024) × (take n result ≡ take n (drop base b.now)) }
{
    let mut letters = [0u8; 1024];
    letters[..n].copy_from_slice(&b[base..base + n]);
    letters
}

// Makes the record anew in a reading: the letters join an empty one of the same capacity.
fn remake(b: &mut [u8], reading: Reading)
    requires { Good b.old }
    ensures { b.new ≡ after_additions at_right (letters_in b.old) (opened (reading_number (way_of reading)) (capacity_in b.old) b.old) }
{
    let capacity = header::capacity(b);
    let n = header::size(b);
    let letters = letters_at(b, 24 * (capacity + 2), n);
    open(b, reading, capacity);
    fill(b, Side::Right, &letters[..n]);
}

// Turns the record to a reading. To the reading in force nothing is written.
pub fn turn(b: &mut [u8], reading: Reading)
    requires { Good b.old }
    ensures { b.new ≡ turned (reading_number (way_of reading)) b.old }
{
    if header::reading(b) != reading_number(reading) {
        remake(b, reading);
    }
}
