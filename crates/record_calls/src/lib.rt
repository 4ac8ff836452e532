// The host's questions about the record: its length, how many repeats stand, how long the longest is, and the
// letter at a place.
// Each tests its store and its argument, asks nothing of the caller, and changes no byte.
#![tactic(auto)]

ghost use Rattle.palindromes.specs.Refusal.{ask, the_length, the_count, the_longest_length, the_letter};
ghost use Rattle.outcome.specs.Promise.{nothing, Asked};
ghost use Rattle.outcome.specs.Verdict.{Verdict, judged_number};

use outcome::answers::refuse;
use outcome::pack;
use questions::record;
use refusal::Refusal;
use store::header;

// How many letters stand.
pub fn length(store: &[u8]) -> u64
    ensures { Asked the_length store.now nothing result nothing }
{
    if !audit::is_good(store) {
        return refuse(Refusal::Damaged);
    }
    pack(false, 0, record::length(store), 0)
}

// How many distinct repeats stand.
pub fn count(store: &[u8]) -> u64
    ensures { Asked the_count store.now nothing result nothing }
{
    if !audit::is_good(store) {
        return refuse(Refusal::Damaged);
    }
    pack(false, 0, record::count(store), 0)
}

// The length of the longest repeat, 0 where there is none, from the number that the store carries.
pub fn longest_length(store: &[u8]) -> u64
    ensures { Asked the_longest_length store.now nothing result nothing }
{
    if !audit::is_good(store) {
        return refuse(Refusal::Damaged);
    }
    pack(false, 0, header::longest(store), 0)
}

// Why a letter cannot be told, if it cannot.
fn judge_letter(store: &[u8], place: u64) -> Result<(), Refusal>
    ensures { Verdict (ask (the_letter place)) store.now nothing (judged_number result) }
{
    if !audit::is_good(store) {
        return Err(Refusal::Damaged);
    }
    if record::length(store) as u64 <= place {
        return Err(Refusal::NoSuchPlace);
    }
    Ok(())
}

// The letter at a place.
pub fn letter(store: &[u8], place: u64) -> u64
    ensures { Asked (the_letter place) store.now nothing result nothing }
{
    match judge_letter(store, place) {
        Ok(()) => {
            let letter = record::letter(store, place as usize);
            pack(false, 0, usize::from(letter), 0)
        }
        Err(refusal) => refuse(refusal),
    }
}
