// The tour of the letters from left to right: from the row of the longest palindrome that ends the
// letters so far, each letter leads to the row of the next one. A row is tested when it is first
// met, and marked, and its length is counted. What the tour knows of both ends once all letters are
// read is all that a removal or a question about an end asks, so that neither reads them again.
#![tactic(auto)]

ghost use Rattle.std.specs.Prelude.{◌≡◌, ◌+◌};
ghost use Rattle.store.specs.Layout.{letters_in};
ghost use Rattle.store.specs.Side.{end_of};
ghost use Rattle.partners.specs.Table.{PartnersIn};
ghost use Rattle.walk.specs.Frame.{Frames, partner_in};
ghost use Rattle.audit_tour.specs.Tour.{Ready, Blank, read_in, reach_at, Arrived, Reading, Grows, Visited};

use audit_edge::{new_row_right, points_back};
use audit_left::{left_known, left_new};
use audit_lengths::count_row;
use ends::Reach;
use partners::{partner_in, table};
use store::letters::Side;
use store::rows;
use store::rows::Row;
use walk::frame::{Frame, frame_of, standing};

// Where a tour stands. Of the right end of the letters so far: the row of the longest palindrome there, the row of the
// longest there one letter before, and whether the first was known then. Of the left end: the row of the longest there, the
// row of the longest without the first letter, and whether the first stands without it again. And how many rows were met.
// The numbers lie side by side, not in a struct for either end, so that each stays in a register of its own.
#[derive(Clone, Copy)]
pub struct Tour {
    pub row: usize,
    pub before: usize,
    pub known: bool,
    pub left: usize,
    pub second: usize,
    pub again: bool,
    pub met: usize,
}

// What a tour knows of a side.
pub fn reach_at(tour: Tour, side: Side) -> Reach
    ensures { result ≡ reach_at (end_of side) tour }
{
    match side {
        Side::Left => Reach {
            row: tour.left,
            short: tour.second,
            again: tour.again,
        },
        Side::Right => Reach {
            row: tour.row,
            short: tour.before,
            again: tour.known,
        },
    }
}

// The tour at row q, which is known or new, with the left end as it is now.
fn arrive(tour: Tour, q: usize, known: bool, left: Reach, met: usize) -> Tour
    ensures { Arrived tour q known left met result }
{
    Tour {
        row: q,
        before: tour.row,
        known,
        left: left.row,
        second: left.short,
        again: left.again,
        met,
    }
}

// The letter d, whose partner is `want`, k letters read, leads along the edge of row u: to the tour that
// goes on, or to none, where the store is not good.
pub fn enter(
    b: &[u8],
    f: Frame,
    marks: &mut [u8],
    carried: &mut [u16],
    k: usize,
    tour: Tour,
    u: usize,
    d: u8,
    want: u8,
) -> Option<Tour>
    requires frames { Frames b.now f × (want ≡ partner_in f d) }
    requires reading { Reading b.now marks.old carried.old k tour }
    requires grows { Grows b.now marks.old k d u }
    ensures { Visited b.now marks.new carried.new (read_in b.now (k + 1)) result }
{
    let q = rows::edge_of(b, u, d);
    if !points_back(b, u, d, q) {
        return None;
    }
    if marks[q] == 1 {
        let known = left_known(q, reach_at(tour, Side::Left));
        return Some(arrive(tour, q, true, known, tour.met));
    }
    if !new_row_right(b, f, k, u, d, want, q) {
        return None;
    }
    marks[q] = 1;
    count_row(b, carried, q);
    let new = left_new(b, k, q, reach_at(tour, Side::Left));
    Some(arrive(tour, q, false, new, tour.met + 1))
}

// The letter after the first k, in the same way.
pub fn advance(
    b: &[u8],
    f: Frame,
    partners: &[u8; 256],
    marks: &mut [u8],
    carried: &mut [u16],
    k: usize,
    tour: Tour,
) -> Option<Tour>
    requires frames { Frames b.now f × PartnersIn f.reading partners.now }
    requires reading { Reading b.now marks.old carried.old k tour }
    ensures { Visited b.now marks.new carried.new (read_in b.now (k + 1)) result }
{
    let d = standing(b, f, Side::Right, k);
    let want = partner_in(partners, d);
    let search = walk::walk(b, f, Side::Right, k, tour.row, d, want);
    match search.met {
        Some(u) => enter(b, f, marks, carried, k, tour, u, d, want),
        None => {
            let left = reach_at(tour, Side::Left);
            Some(arrive(tour, Row::EMPTY, true, left, tour.met))
        }
    }
}

// All letters, with no row marked and no length counted at first.
pub fn replay(b: &[u8], marks: &mut [u8], carried: &mut [u16]) -> Option<Tour>
    requires ready { Ready b.now }
    requires blank { Blank marks.old × Blank carried.old }
    ensures { Visited b.now marks.new carried.new (letters_in b.now) result }
{
    let f = frame_of(b);
    let partners = table(f.reading);
    let mut tour = Tour {
        row: Row::EMPTY,
        before: Row::EMPTY,
        known: true,
        left: Row::EMPTY,
        second: Row::EMPTY,
        again: true,
        met: 0,
    };
    for k in 0..f.n {
        tour = advance(b, f, &partners, marks, carried, k, tour)?;
    }
    Some(tour)
}
