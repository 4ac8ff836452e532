// Which palindromes stand once only, from one reading of the letters. A row is marked where it is
// met: once, and again. What ends a palindrome begins it too, so where a row is met first its link
// stands again; that is all that one letter more can change, since whatever ends the link or a
// palindrome met before stood twice already.
#![tactic(auto)]

ghost use Rattle.std.specs.Prelude.{◌≡◌, true, ◌≤◌, length, replicate};
ghost use Rattle.store.specs.Layout.{size_in, used_in};
ghost use Rattle.store.specs.Good.{Good};
ghost use Rattle.end_rows.specs.EndRows.{FirstRows};
ghost use Rattle.unique_rows.specs.Marks.{Marks, Meets};

use store::rows;
use store::rows::Row;
use walk::replay::Replay;

// Marks a row that is met at a right end, and answers whether its palindrome is new there.
fn meet(b: &[u8], marks: &mut [u8], row: usize) -> bool
    requires good { Good b.now }
    requires row_value { (used_in b.now row ≡ true) × (length marks.old ≡ 1026) }
    ensures { Meets b.now row marks.old marks.new result }
{
    if marks[row] != 0 {
        marks[row] = 2;
        return false;
    }
    marks[rows::link_of(b, row)] = 2;
    marks[row] = 1;
    true
}

// Marks each row as often as its palindrome stands, 2 for any more and for the roots, with marks
// that begin empty, and puts at each right end the row that is first met there, and the imaginary
// row where none is.
pub fn mark_rows(b: &[u8], firsts: &mut [u16], marks: &mut [u8])
    requires good { Good b.now }
    requires b_in_bounds { size_in b.now ≤ length firsts.old }
    requires marks_value { marks.old ≡ replicate 1026 0 }
    ensures first { FirstRows b.now firsts.new }
    ensures marked { Marks b.now (size_in b.now) marks.new }
{
    marks[Row::IMAGINARY] = 2;
    marks[Row::EMPTY] = 2;
    for (k, row) in Replay::new(b) {
        let new = if meet(b, marks, row) {
            row
        } else {
            Row::IMAGINARY
        };
        firsts[k] = new as u16;
    }
}
