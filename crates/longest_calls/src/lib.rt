// The host's questions about the longest repeat, of all or at an end. Each tests its store, asks nothing
// of the caller, and changes no byte.
#![tactic(auto)]

ghost use Rattle.palindromes.specs.End.{End};
ghost use Rattle.palindromes.specs.Refusal.{ask, the_longest, the_longest_at};
ghost use Rattle.std.specs.Prelude.{MatchResult};
ghost use Rattle.store.specs.Layout.{used_in, letters_in};
ghost use Rattle.store.specs.Side.{end_of};
ghost use Rattle.refusal.specs.Number.{number_of};
ghost use Rattle.ends.specs.Reach.{Reaches};
ghost use Rattle.audit_tour.specs.Tour.{reach_at};
ghost use Rattle.outcome.specs.Promise.{nothing, Asked};
ghost use Rattle.outcome.specs.Verdict.{Verdict};

use audit_tour::{Tour, reach_at};
use longest_palindrome::{at_end, whole};
use outcome::answers::refuse;
use outcome::pack;
use questions::record;
use refusal::Refusal;
use store::letters::Side;

// What the test of a store tells of its ends, where the longest repeat can be answered, of all or at an end.
fn judge_longest(store: &[u8]) -> Result<Tour, Refusal>
    ensures { MatchResult result (λ tour. Verdict (ask the_longest) store.now nothing 0 × ((e : End) → Reaches store.now (used_in store.now) e (letters_in store.now) (reach_at e tour))) (λ refusal. Verdict (ask the_longest) store.now nothing (number_of refusal)) }
{
    let tour = audit::examine(store).ok_or(Refusal::Damaged)?;
    if record::length(store) == 0 {
        return Err(Refusal::Empty);
    }
    Ok(tour)
}

// The longest repeat's length and leftmost place.
pub fn longest_repeat(store: &[u8]) -> u64
    ensures { Asked the_longest store.now nothing result nothing }
{
    match judge_longest(store) {
        Ok(_) => {
            let found = whole::longest(store);
            pack(false, 0, found.length, found.place)
        }
        Err(refusal) => refuse(refusal),
    }
}

// The row of the longest repeat at a side, and whether it stands once only: the test has read the letters.
pub fn longest_at(store: &[u8], side: Side) -> u64
    ensures { Asked (the_longest_at (end_of side)) store.now nothing result nothing }
{
    match judge_longest(store) {
        Ok(tour) => {
            let found = at_end::longest_at(store, side, reach_at(tour, side));
            pack(found.once, found.row, 0, 0)
        }
        Err(refusal) => refuse(refusal),
    }
}
