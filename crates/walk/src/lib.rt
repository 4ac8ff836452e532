// The walk along the suffix links: given the row of the longest palindrome that ends the letters
// read so far, and the next letter, the row of the longest that ends one letter more.
//
// Letters are read towards a side, so one walk serves both ends. Nothing is written, and nothing
// is asked of the store but that the letters of the frame lie within it, that the link chain does,
// and that its lengths fall.
#![tactic(auto)]

pub mod frame;
pub mod replay;

ghost use Rattle.std.specs.Prelude.{◌≡◌, ◌+◌, ◌*◌, ◌≤◌, ◌<◌, length};
ghost use Rattle.store.specs.Layout.{cell};
ghost use Rattle.store.specs.Side.{end_of};
ghost use Rattle.walk.specs.Frame.{standing_in, seen_in, partner_in, Within};
ghost use Rattle.walk.specs.Walk.{faces_at, Chain, Meets, Stepped};

use frame::Frame;
use store::letters::Side;
use store::rows::Row;
use store::{lengths, rows};

// A walk: the row that the letter grows, none if it went past the imaginary string, and how many rows
// it passed before.
#[derive(Clone, Copy)]
pub struct Search {
    pub met: Option<usize>,
    pub passed: usize,
}

// Whether the letter just before row's palindrome, as it stands, is c, the palindrome ending the first
// k letters. The length that it reads is a number of two bytes: so a walk, along which lengths fall, can
// count the rows that it passes.
pub fn faces(b: &[u8], f: Frame, side: Side, k: usize, row: usize, c: u8) -> bool
    requires within { Within b.now f k }
    requires row_in_bounds { (24 * row + 24 ≤ length b.now) × (0 < cell b.now row 0) }
    ensures { (result ≡ faces_at b.now (standing_in b.now f side) k c row) × (cell b.now row 0 < 65536) }
{
    let place = lengths::before(k, rows::length_of(b, row));
    match place {
        Some(i) => frame::standing(b, f, side, i) == c,
        None => false,
    }
}

// The first row from `start` along the links that has `want`, the partner of d, just before it, and how
// many come before that row; the imaginary string has d itself. The count costs nothing where nobody
// takes it, since each caller gets the loop in its own place.
pub fn walk(b: &[u8], f: Frame, side: Side, k: usize, start: usize, d: u8, want: u8) -> Search
    requires within { Within b.now f k }
    requires chain { Chain b.now start }
    requires want_value { want ≡ partner_in f d }
    ensures { Meets b.now (seen_in b.now f side) k d (partner_in f d) start result.passed result.met }
{
    // The letter that must stand before a palindrome for the partner of d to be read there. It is chosen
    // once for a walk, so that no comparison asks for a partner.
    let facing = side.pick(d, want);
    let mut row = start;
    let mut passed = 0;
    while row != Row::IMAGINARY {
        if faces(b, f, side, k, row, facing) {
            return Search {
                met: Some(row),
                passed,
            };
        }
        row = rows::link_of(b, row);
        passed += 1;
    }
    let met = if want == d {
        Some(Row::IMAGINARY)
    } else {
        None
    };
    Search { met, passed }
}

// The row at the edge that the walk found, and the empty string's where it found none.
pub fn step(b: &[u8], f: Frame, side: Side, k: usize, start: usize, d: u8, want: u8) -> usize
    requires within { Within b.now f k }
    requires chain { Chain b.now start }
    requires want_value { want ≡ partner_in f d }
    ensures { Stepped b.now (seen_in b.now f side) k d (partner_in f d) start result }
{
    let search = walk(b, f, side, k, start, d, want);
    match search.met {
        Some(u) => rows::edge_of(b, u, d),
        None => Row::EMPTY,
    }
}
