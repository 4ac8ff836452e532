// The longest palindrome at an end, and whether it stands once only.
ghost use Rattle.std.specs.Prelude.{◌≡◌, ◌<◌};
ghost use Rattle.palindromes.specs.Place.{stands_once};
ghost use Rattle.palindromes.specs.Node.{spelt};
ghost use Rattle.store.specs.Layout.{size_in, used_in, letters_in};
ghost use Rattle.store.specs.Good.{Good};
ghost use Rattle.store.specs.Side.{end_of};
ghost use Rattle.ends.specs.Reach.{Reaches};
ghost use Rattle.transitions.specs.Rows.{row_of};
ghost use Rattle.longest_palindrome.specs.Ends.{longest_in};

use ends::Reach;
use store::header;
use store::letters::Side;

// The row of the longest palindrome at an end, and whether that stands once only.
#[derive(Clone, Copy)]
pub struct AtEnd {
    pub row: usize,
    pub once: bool,
}

// Asks a side: the longest there stands once only exactly if it does not stand without the side's
// own letter. The empty string stands everywhere.
pub fn longest_at(b: &[u8], side: Side, reach: Reach) -> AtEnd
    requires good { Good b.now }
    requires b_nonzero { 0 < size_in b.now }
    requires reaches { Reaches b.now (used_in b.now) (end_of side) (letters_in b.now) reach }
    ensures row { result.row ≡ row_of b.now (spelt (longest_in b.now (end_of side))) }
    ensures once { result.once ≡ stands_once (longest_in b.now (end_of side)) (letters_in b.now) }
{
    AtEnd {
        row: header::end_row(b, side),
        once: !reach.again,
    }
}
