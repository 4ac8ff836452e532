// The rows at the right ends of a record, from one reading of the letters that both sums of all
// places share.
#![tactic(auto)]

ghost use Rattle.std.specs.Prelude.{◌≤◌, length};
ghost use Rattle.store.specs.Layout.{size_in};
ghost use Rattle.store.specs.Good.{Good};
ghost use Rattle.end_rows.specs.EndRows.{EndRows};

use walk::replay::Replay;

// Puts at place k the row of the longest palindrome that ends the first k + 1 letters.
pub fn rows_at_ends(b: &[u8], ends: &mut [u16])
    requires good { Good b.now }
    requires b_in_bounds { size_in b.now ≤ length ends.old }
    ensures { EndRows b.now ends.new }
{
    for (k, row) in Replay::new(b) {
        ends[k] = row as u16;
    }
}
