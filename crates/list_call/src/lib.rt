// The host's call that lists the repeats. It tests its store and its buffers, asks nothing of the caller,
// and leaves every byte as the outcome of the call says.
#![tactic(auto)]

ghost use Rattle.palindromes.specs.Refusal.{ask, list};
ghost use Rattle.outcome.specs.Promise.{lending, Asked};
ghost use Rattle.outcome.specs.Verdict.{Verdict, judged_number};

use identifier::is_identifier;
use outcome::answers::refuse;
use outcome::pack;
use refusal::Refusal;

// Why the list cannot be written, if it cannot.
fn judge_list(store: &[u8], name: &[u8], scratch: &[u8], out: &[u8]) -> Result<(), Refusal>
    ensures { Verdict (ask (list name.now)) store.now (lending scratch.now out.now) (judged_number result) }
{
    if !audit::is_good(store) {
        return Err(Refusal::Damaged);
    }
    if !is_identifier(name) {
        return Err(Refusal::Identifier);
    }
    if scratch.len() < listing::scratch_size(store) {
        return Err(Refusal::ShortBuffer);
    }
    if out.len() < listing::listing_length(store, name) {
        return Err(Refusal::ShortBuffer);
    }
    Ok(())
}

// Writes the list of the repeats, and answers how many bytes it has.
pub fn list_repeats(store: &[u8], name: &[u8], scratch: &mut [u8], out: &mut [u8]) -> u64
    ensures { Asked (list name.now) store.now (lending scratch.old out.old) result (lending scratch.new out.new) }
{
    match judge_list(store, name, scratch, out) {
        Ok(()) => pack(false, 0, listing::list(store, name, scratch, out), 0),
        Err(refusal) => refuse(refusal),
    }
}
