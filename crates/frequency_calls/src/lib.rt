// The host's questions about how often repeats stand: one row's, and all of them counted by place. Each tests its store and its
// argument, asks nothing of the caller, and changes no byte.
#![tactic(auto)]

ghost use Rattle.palindromes.specs.Refusal.{ask, the_frequency, the_occurrences};
ghost use Rattle.outcome.specs.Promise.{nothing, Asked};
ghost use Rattle.outcome.specs.Verdict.{Verdict, judged_number};

use end_rows::rows_at_ends;
use frequencies::occurrences_by_row;
use outcome::answers::refuse;
use outcome::{pack, pack_wide};
use questions::rows;
use refusal::Refusal;
use store::rows::Row;
use suffix_palindromes::occurrences_by_end;

// Why it cannot be told how often a row's repeat stands, if it cannot.
fn judge_frequency(store: &[u8], row: u64) -> Result<(), Refusal>
    ensures { Verdict (ask (the_frequency row)) store.now nothing (judged_number result) }
{
    if !audit::is_good(store) {
        return Err(Refusal::Damaged);
    }
    if row as usize <= Row::EMPTY || !rows::is_used(store, row as usize) {
        return Err(Refusal::NoSuchPlace);
    }
    Ok(())
}

// How often a row's repeat stands.
pub fn frequency(store: &[u8], row: u64) -> u64
    ensures { Asked (the_frequency row) store.now nothing result nothing }
{
    match judge_frequency(store, row) {
        Ok(()) => {
            let places = suffix_palindromes::frequency(store, row as usize);
            pack(false, 0, places, 0)
        }
        Err(refusal) => refuse(refusal),
    }
}

// How many repeats stand, counted by place: over the rows and over the right ends.
pub fn occurrences(store: &[u8]) -> u64
    ensures { Asked the_occurrences store.now nothing result nothing }
{
    if !audit::is_good(store) {
        return refuse(Refusal::Damaged);
    }
    let mut ends = [0u16; 1024];
    rows_at_ends(store, &mut ends);
    let by_ends = occurrences_by_end(store, &ends);
    let by_rows = occurrences_by_row(store, &mut ends);
    pack_wide(by_rows, by_ends)
}
