// Meeting the palindromes of a record while its letters are read, with a mark at each that has
// stood so far.
ghost use Rattle.std.specs.Prelude.{◌≡◌, true};
ghost use Rattle.store.specs.Layout.{used_in};
ghost use Rattle.store.specs.Good.{Good};
ghost use Rattle.listing.specs.Reading.{Meets};

use bitmap::mark;
use store::rows::{Row, rank_of};

// Marks the row of the longest palindrome that ends the letters read, and answers whether that is
// one of the window and stands there for the first time. A row in use has its mark at its rank; a
// root has none.
pub fn meet(b: &[u8], marks: &mut [u8], from: usize, row: usize) -> bool
    requires good { Good b.now }
    requires row_value { used_in b.now row ≡ true }
    ensures { Meets b.now from row marks.old result marks.new }
{
    row > Row::EMPTY && mark(marks, from, rank_of(b, row))
}
