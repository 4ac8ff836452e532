// A removal. Whether the longest palindrome at the end still stands, and which is the longest there without the letter, is
// told by whoever read the letters: a test of the store does.
#![tactic(auto)]

ghost use Rattle.std.specs.Prelude.{◌≡◌, ◌<◌};
ghost use Rattle.store.specs.Good.{Good};
ghost use Rattle.store.specs.Layout.{size_in, used_in, letters_in};
ghost use Rattle.store.specs.Side.{end_of};
ghost use Rattle.ends.specs.Reach.{Reaches};
ghost use Rattle.transitions.specs.Removal.{after_removal};
ghost use Rattle.removal.specs.Steps.{Parts, Removes};

use ends::Reach;
use outcome::answers::Removed;
use store::letters::Side;
use store::{header, rows};
use walk::frame;

// What a removal finds before it writes: the letter, the row of the longest palindrome at its end if
// that goes with it, since it stands nowhere else, and the rows of both ends without the letter.
#[derive(Clone, Copy)]
struct Parting {
    pub letter: u8,
    pub gone: Option<usize>,
    pub last: usize,
    pub opposite: usize,
}

// What the removal at a side of a record that is not empty finds.
fn part(b: &[u8], side: Side, reach: Reach) -> Parting
    requires good { Good b.now }
    requires b_nonzero { 0 < size_in b.now }
    requires reaches { Reaches b.now (used_in b.now) (end_of side) (letters_in b.now) reach }
    ensures { Parts b.now (end_of side) result }
{
    let f = frame::frame_of(b);
    let row = header::end_row(b, side);
    let longest = rows::length_of(b, row);
    let link = rows::link_of(b, row);
    Parting {
        letter: joining::letter_at(b, f.base, f.n, side),
        gone: (!reach.again).then_some(row),
        last: reach.short,
        opposite: ends::across(b, side, longest, f.n, link),
    }
}

// Removes the letter at a side, with the palindrome of the given row, which stood nowhere else.
fn take_out(b: &mut [u8], side: Side, row: usize, p: Parting)
    requires good { Good b.old }
    requires b_nonzero { 0 < size_in b.old }
    requires parts { Parts b.old (end_of side) p × (p.gone ≡ Some row) }
    ensures { b.new ≡ after_removal (end_of side) b.old }
{
    let f = frame::frame_of(b);
    let lengths = length_counts::without(b, row);
    joining::leave(b, f.base, f.n, side);
    freeing::free(b, row);
    length_counts::put(b, lengths);
    ends::settle(b, side, f.n - 1, p.last, p.opposite);
}

// Removes the letter at a side, where every palindrome stays.
fn leave_rows(b: &mut [u8], side: Side, p: Parting)
    requires good { Good b.old }
    requires b_nonzero { 0 < size_in b.old }
    requires parts { Parts b.old (end_of side) p × (p.gone ≡ None) }
    ensures { b.new ≡ after_removal (end_of side) b.old }
{
    let f = frame::frame_of(b);
    joining::leave(b, f.base, f.n, side);
    ends::settle(b, side, f.n - 1, p.last, p.opposite);
}

// Removes the letter at a side of a record that is not empty.
pub fn remove(b: &mut [u8], side: Side, reach: Reach) -> Removed
    requires good { Good b.old }
    requires b_nonzero { 0 < size_in b.old }
    requires reaches { Reaches b.old (used_in b.old) (end_of side) (letters_in b.old) reach }
    ensures { Removes (end_of side) b.old b.new result }
{
    let p = part(b, side, reach);
    match p.gone {
        Some(row) => {
            take_out(b, side, row, p);
            Removed::Gone(p.letter, row)
        }
        None => {
            leave_rows(b, side, p);
            Removed::Kept(p.letter)
        }
    }
}
