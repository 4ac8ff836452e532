// An addition: where the letter brings in a palindrome, the palindrome's row is inserted with it; else
// the letter alone joins the record.
#![tactic(auto)]

ghost use Rattle.std.specs.Prelude.{◌≡◌, true, ◌<◌};
ghost use Rattle.palindromes.specs.Word.{is_letter};
ghost use Rattle.store.specs.Good.{rule_of, Good};
ghost use Rattle.store.specs.Layout.{capacity_in, size_in};
ghost use Rattle.store.specs.Side.{end_of};
ghost use Rattle.transitions.specs.Addition.{after_addition};
ghost use Rattle.growth.specs.Steps.{StoodIs};
ghost use Rattle.addition.specs.Steps.{Adds};

use growth::Growth;
use outcome::answers::Added;
use store::letters::Side;
use store::rows;
use walk::frame;

// Adds a letter that brings in none; q is the row of the longest palindrome that it makes.
fn add_known(b: &mut [u8], side: Side, c: u8, q: usize)
    requires good { Good b.old }
    requires b_bound { size_in b.old < capacity_in b.old }
    requires stood_is { StoodIs b.old (end_of side) c q }
    ensures { b.new ≡ after_addition (end_of side) c b.old }
{
    let f = frame::frame_of(b);
    let longest = rows::length_of(b, q);
    let opposite = ends::across(b, side, longest, f.n + 1, q);
    joining::join(b, f.base, f.n, side, c);
    ends::settle(b, side, f.n + 1, q, opposite);
}

// Adds the letter c, whose partner is p, at a side of a record that is not full.
pub fn add(b: &mut [u8], side: Side, c: u8, p: u8) -> Added
    requires good { Good b.old }
    requires c_value { (is_letter c ≡ true) × (p ≡ rule_of b.old c) }
    requires b_bound { size_in b.old < capacity_in b.old }
    ensures { Adds (end_of side) c b.old b.new result }
{
    match growth::find(b, side, c, p) {
        Growth::Fresh(row, passed) => Added::New(insertion::insert(b, side, c, row), passed),
        Growth::Stood(q, passed) => {
            add_known(b, side, c, q);
            Added::Known(passed)
        }
    }
}
