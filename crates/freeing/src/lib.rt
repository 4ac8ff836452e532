// The row of a palindrome that goes is made free: it is cleared, with the edge that leads to it, and
// moved behind the rows in use.
#![tactic(auto)]

ghost use Rattle.std.specs.Prelude.{◌≡◌, ◌+◌, ◌*◌, ◌≤◌, length};
ghost use Rattle.store.specs.Writes.{writes};
ghost use Rattle.transitions.specs.Removal.{drop_writes};
ghost use Rattle.freeing.specs.Steps.{Leaves, LeafOf, places_changed};

use store::rows::Row;
use store::{header, rows};

// What a row that goes leads to: its inner row and outer letter, its rank, the last place of the
// order that is in use, and the row there.
#[derive(Clone, Copy)]
struct Leaf {
    pub inner: usize,
    pub outer: u8,
    pub rank: usize,
    pub last: usize,
    pub moved: usize,
}

// What row q leads to.
fn leaf_of(b: &[u8], q: usize) -> Leaf
    requires { Leaves b.now q }
    ensures { LeafOf b.now q result }
{
    let last = header::count(b) - 1;
    Leaf {
        inner: rows::inner_of(b, q),
        outer: rows::outer_of(b, q) as u8,
        rank: rows::rank_of(b, q),
        last,
        moved: rows::order_of(b, last),
    }
}

// Row q, of the place `rank` of the order, changes places with the row at the place `last`.
#[tactic(auto, unfolding(store::specs::Writes::writes))]
fn exchange(b: &mut [u8], q: usize, rank: usize, moved: usize, last: usize)
    requires rank_in_bounds { (24 * (rank + 2) + 24 ≤ length b.old) × (24 * moved + 24 ≤ length b.old) }
    requires last_in_bounds { (24 * (last + 2) + 24 ≤ length b.old) × (24 * q + 24 ≤ length b.old) }
    ensures { b.new ≡ writes b.old (places_changed q rank moved last) }
{
    rows::put_order(b, rank, moved);
    rows::put_rank(b, moved, rank);
    rows::put_order(b, last, q);
    rows::put_rank(b, q, last);
}

// Frees row q: clears it and the edge that leads to it, and moves it behind the rows in use.
#[tactic(auto, unfolding(store::specs::Writes::writes, transitions::specs::Removal::drop_writes))]
pub fn free(b: &mut [u8], q: usize)
    requires { Leaves b.old q }
    ensures { b.new ≡ writes b.old (drop_writes b.old q) }
{
    let leaf = leaf_of(b, q);
    rows::clear_row(b, q);
    rows::put_edge(b, leaf.inner, leaf.outer, Row::IMAGINARY);
    exchange(b, q, leaf.rank, leaf.moved, leaf.last);
    header::set_count(b, leaf.last);
}
