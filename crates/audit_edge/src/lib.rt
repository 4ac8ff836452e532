// The row that an edge leads to: whether it names the row and the letter that it is made of, and
// whether its length, its link and its rank are those of a new palindrome's row.
#![tactic(auto)]

ghost use Rattle.std.specs.Prelude.{◌≡◌, ◌+◌, ◌*◌, ◌<◌, ◌≤◌, length};
ghost use Rattle.store.specs.Layout.{cell, capacity_in};
ghost use Rattle.store.specs.Good.{Sized};
ghost use Rattle.walk.specs.Frame.{partner_in};
ghost use Rattle.audit_fixed.specs.Decides.{Decides};
ghost use Rattle.audit_edge.specs.Edge.{PointsBack, Walkable, LinkFound, NewRow};

use store::lengths::plus_two;
use store::letters::Side;
use store::rows::Row;
use store::{header, rows};
use walk::frame::Frame;

// Whether row q is one of the table that names row u and the letter d as what it is made of.
#[tactic(auto, unfolding(palindromes::specs::Refusal::store_size))]
pub fn points_back(b: &[u8], u: usize, d: u8, q: usize) -> bool
    requires { Sized b.now }
    ensures { Decides result (PointsBack b.now u d q) }
{
    2 <= q
        && q < header::capacity(b) + 2
        && rows::inner_of(b, q) == u
        && rows::outer_of(b, q) == usize::from(d)
}

// Whether row q is longer than row u by a letter on either side.
pub fn longer_by_two(b: &[u8], u: usize, q: usize) -> bool
    requires { (24 * u + 24 ≤ length b.now) × (24 * q + 24 ≤ length b.now) }
    ensures { Decides result (cell b.now q 0 ≡ cell b.now u 0 + 2) }
{
    let around = plus_two(rows::length_of(b, u));
    let length = rows::length_of(b, q);
    length == around
}

// The row of the link of what d, whose partner is `want`, makes of row u, k letters read.
pub fn link_found(b: &[u8], f: Frame, k: usize, u: usize, d: u8, want: u8) -> usize
    requires walkable { Walkable b.now f k u }
    requires want_value { want ≡ partner_in f d }
    ensures { LinkFound b.now k d u result }
{
    if u == Row::IMAGINARY {
        return Row::EMPTY;
    }
    walk::step(b, f, Side::Right, k, rows::link_of(b, u), d, want)
}

// Whether row q, which names row u and the letter d, is right as the row of a new palindrome: longer
// by two, in use, and with the link that the walk finds, k letters read.
pub fn new_row_right(b: &[u8], f: Frame, k: usize, u: usize, d: u8, want: u8, q: usize) -> bool
    requires walkable { Walkable b.now f k u }
    requires q_bound { q < capacity_in b.now + 2 }
    requires want_value { want ≡ partner_in f d }
    ensures { NewRow b.now k d u q result }
{
    longer_by_two(b, u, q)
        && rows::rank_of(b, q) < header::count(b)
        && rows::link_of(b, q) == link_found(b, f, k, u, d, want)
}
