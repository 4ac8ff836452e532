// The rows once the tour is over. Every row that the tour met was tested when it was met, and so was the one edge that leads
// to it. So what is left to ask of all rows is counted: no more edges lead anywhere, and no more rows say anything, than
// rows were met. The order of the rows is a sparse set: where each row has a place of its own there is none without a row,
// since there are as many.
#![tactic(auto)]

ghost use Rattle.std.specs.Prelude.{◌≡◌, ◌+◌, ◌*◌, ◌≤◌, length};
ghost use Rattle.store.specs.Good.{Sized};
ghost use Rattle.audit_fixed.specs.Decides.{Decides};
ghost use Rattle.audit_fixed.specs.Counting.{one};
ghost use Rattle.audit_rows.specs.Rows.{leads_from, edges_of, filled, RowAt, RowRight, RowsRight};

use audit_lengths::counted_at;
use store::{cells, header, rows};

// 1 if the edge of row r by c leads to a row, and else 0.
#[tactic(auto, unfolding(crate::specs::Rows::leads_from))]
fn leads(b: &[u8], r: usize, c: u8) -> usize
    requires { 24 * r + 24 ≤ length b.now }
    ensures { (result ≡ one (leads_from b.now c r)) × (result ≤ 1) }
{
    usize::from(rows::edge_of(b, r, c) != 0)
}

// How many edges of row r lead to a row.
fn edges_of(b: &[u8], r: usize) -> usize
    requires { 24 * r + 24 ≤ length b.now }
    ensures { (result ≡ edges_of b.now r) × (result ≤ 4) }
{
    leads(b, r, b'A') + leads(b, r, b'C') + leads(b, r, b'G') + leads(b, r, b'T')
}

// 1 if a row r that is no root says anything of a palindrome, edges apart, and else 0. Its four cells are one number, so that
// they are read together.
fn says(b: &[u8], r: usize) -> usize
    requires { (24 * r + 24 ≤ length b.now) × (2 ≤ r) }
    ensures { (result ≡ one (filled b.now r)) × (result ≤ 1) }
{
    let low = cells::get(b, r, 0) + 65536 * cells::get(b, r, 1);
    let high = cells::get(b, r, 2) + 65536 * cells::get(b, r, 3);
    usize::from(low + 4294967296 * high != 0)
}

// Whether row r has a place of the order that names it, and carries the number that was counted.
#[tactic(auto, unfolding(palindromes::specs::Refusal::store_size))]
fn row_right(b: &[u8], carried: &[u16], capacity: usize, r: usize) -> bool
    requires { RowAt b.now carried.now capacity r }
    ensures { Decides result (RowRight b.now carried.now r) }
{
    let rank = rows::rank_of(b, r);
    rank < capacity
        && rows::order_of(b, rank) == r
        && cells::get(b, r, 10) == counted_at(carried, r)
}

// Whether every row is right, and as many edges lead to a row, and as many rows say anything, as were met.
#[tactic(auto, unfolding(palindromes::specs::Refusal::store_size))]
pub fn rows_right(b: &[u8], carried: &[u16], met: usize) -> bool
    requires sized { Sized b.now }
    requires carried_len { length carried.now ≡ 1026 }
    ensures { Decides result (RowsRight b.now carried.now met) }
{
    let capacity = header::capacity(b);
    let mut edges = edges_of(b, 0) + edges_of(b, 1);
    let mut said = 0;
    for r in 2..capacity + 2 {
        if !row_right(b, carried, capacity, r) {
            return false;
        }
        edges += edges_of(b, r);
        said += says(b, r);
    }
    edges == met && said == met
}
