// The test of a store: it decides whether a store is good, for any bytes of any length.
//
// Each part of what good means is tested by a function whose contract says that it decides that
// part. The sizes come first, so that no later test reads outside the store; the tour of the
// letters meets the rows in the order in which their palindromes first end, so that no link is
// followed that was not tested before; and what no palindrome accounts for is counted last.
#![tactic(auto)]

ghost use Rattle.std.specs.Prelude.{◌≡◌, length};
ghost use Rattle.store.specs.Good.{Sized, Good};
ghost use Rattle.audit_fixed.specs.Decides.{Decides};
ghost use Rattle.audit.specs.Examined.{Started, EndsRight, Examined};

use audit_lengths::counted_at;
use audit_tour::Tour;
use store::header;
use store::letters::Side;

// Whether the tour can start: all that is tested before it.
fn can_start(b: &[u8]) -> bool
    ensures { Decides result (Started b.now) }
{
    audit_fixed::sized(b)
        && audit_fixed::letters_right(b)
        && audit_fixed::places_free(b)
        && audit_fixed::roots_right(b)
}

// Whether the header has what the tour found: the number of palindromes, the rows of both ends and the largest length.
#[tactic(auto, unfolding(palindromes::specs::Refusal::store_size))]
fn ends_right(b: &[u8], carried: &[u16], tour: Tour) -> bool
    requires { Sized b.now × (length carried.now ≡ 1026) }
    ensures { Decides result (EndsRight b.now carried.now tour) }
{
    header::count(b) == tour.met
        && header::end_row(b, Side::Left) == tour.left
        && header::end_row(b, Side::Right) == tour.row
        && header::longest(b) == counted_at(carried, 1)
}

// Tests the store: what the reading of its letters told of its ends, or none where the store is not good.
pub fn examine(b: &[u8]) -> Option<Tour>
    ensures { Examined b.now result }
{
    if !can_start(b) {
        return None;
    }
    let mut marks = [0u8; 1026];
    let mut carried = [0u16; 1026];
    let tour = audit_tour::replay(b, &mut marks, &mut carried)?;
    if ends_right(b, &carried, tour) && audit_rows::rows_right(b, &carried, tour.met) {
        Some(tour)
    } else {
        None
    }
}

// Whether the store is good.
pub fn is_good(b: &[u8]) -> bool
    ensures { Decides result (Good b.now) }
{
    examine(b).is_some()
}
