// A letter that brings in a palindrome is added: the palindrome's row is hung into the table, in the
// next free row.
#![tactic(auto)]

ghost use Rattle.std.specs.Prelude.{◌≡◌, ◌+◌, ◌*◌, ◌<◌, ◌≤◌, length};
ghost use Rattle.store.specs.Good.{Good};
ghost use Rattle.store.specs.Layout.{capacity_in, size_in};
ghost use Rattle.store.specs.Lengths.{Stored};
ghost use Rattle.store.specs.Side.{end_of};
ghost use Rattle.store.specs.Writes.{writes};
ghost use Rattle.transitions.specs.Rows.{free_row};
ghost use Rattle.transitions.specs.Addition.{after_addition};
ghost use Rattle.growth.specs.Steps.{FreshIs};
ghost use Rattle.insertion.specs.Steps.{row_hung};

use store::letters::Side;
use store::rows::Row;
use store::{header, rows};
use walk::frame;

// Writes row r, hangs it at the edge of its inner row, and counts it.
#[tactic(auto, unfolding(store::specs::Writes::writes))]
fn hang(b: &mut [u8], r: usize, row: Row, count: usize)
    requires in_bounds { (48 ≤ length b.old) × (24 * r + 24 ≤ length b.old) × (24 * row.inner + 24 ≤ length b.old) }
    requires count_bound { (count < 65536) × Stored row.length }
    ensures { b.new ≡ writes b.old (row_hung row r count) }
{
    rows::put_row(b, r, row);
    rows::put_edge(b, row.inner, row.outer, r);
    header::set_count(b, count + 1);
}

// Adds a letter that brings in a palindrome, whose row is given, and answers the row's number.
pub fn insert(b: &mut [u8], side: Side, c: u8, row: Row) -> usize
    requires good { Good b.old }
    requires b_bound { size_in b.old < capacity_in b.old }
    requires fresh_is { FreshIs b.old (end_of side) c row }
    ensures { (b.new ≡ after_addition (end_of side) c b.old) × (result ≡ free_row b.old) }
{
    let f = frame::frame_of(b);
    let count = header::count(b);
    let r = rows::order_of(b, count);
    let opposite = ends::across(b, side, row.length, f.n + 1, r);
    joining::join(b, f.base, f.n, side, c);
    hang(b, r, row, count);
    length_counts::gain(b, row.length);
    ends::settle(b, side, f.n + 1, r, opposite);
    r
}
