// The host's calls that remove a letter, at either end. Each tests its store, asks nothing of the caller,
// and leaves every byte as the outcome of the call says.
#![tactic(auto)]

ghost use Rattle.palindromes.specs.Refusal.{remove};
ghost use Rattle.std.specs.Prelude.{◌<◌, MatchResult};
ghost use Rattle.store.specs.Layout.{size_in, used_in, letters_in};
ghost use Rattle.store.specs.Good.{Good};
ghost use Rattle.store.specs.Side.{end_of};
ghost use Rattle.refusal.specs.Number.{number_of};
ghost use Rattle.ends.specs.Reach.{Reaches};
ghost use Rattle.outcome.specs.Promise.{nothing, Promise};
ghost use Rattle.outcome.specs.Verdict.{Verdict};

use audit_tour::reach_at;
use ends::Reach;
use outcome::answers;
use outcome::answers::refuse;
use refusal::Refusal;
use store::header;
use store::letters::Side;

// What is known of the end at a side where a letter can be removed: the test has read the letters.
fn judge_remove(store: &[u8], side: Side) -> Result<Reach, Refusal>
    ensures { MatchResult result (λ reach. Good store.now × (0 < size_in store.now) × Reaches store.now (used_in store.now) (end_of side) (letters_in store.now) reach) (λ refusal. Verdict (remove (end_of side)) store.now nothing (number_of refusal)) }
{
    let tour = audit::examine(store).ok_or(Refusal::Damaged)?;
    if header::size(store) == 0 {
        return Err(Refusal::Empty);
    }
    Ok(reach_at(tour, side))
}

// Removes the letter at a side: the letter, and 1 and the row that went, or 0 and row 0. What a removal
// asks of the letters the test has read.
pub fn remove(store: &mut [u8], side: Side) -> u64
    ensures { Promise (remove (end_of side)) store.old nothing result store.new nothing }
{
    match judge_remove(store, side) {
        Ok(reach) => answers::answer_removed(removal::remove(store, side, reach)),
        Err(refusal) => refuse(refusal),
    }
}
