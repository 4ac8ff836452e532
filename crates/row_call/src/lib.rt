// The host's question about a row. It tests its store and its argument, asks nothing of the caller, and
// changes no byte.
#![tactic(auto)]

ghost use Rattle.std.specs.Prelude.{◌≡◌, ◌<◌};
ghost use Rattle.palindromes.specs.Refusal.{ask, the_row};
ghost use Rattle.store.specs.Lengths.{Stored};
ghost use Rattle.outcome.specs.Reply.{twos_complement};
ghost use Rattle.outcome.specs.Promise.{nothing, Asked};
ghost use Rattle.outcome.specs.Verdict.{Verdict, judged_number};

use outcome::answers::refuse;
use outcome::pack;
use questions::rows;
use refusal::Refusal;

// Why a row cannot be told, if it cannot.
fn judge_row(store: &[u8], row: u64) -> Result<(), Refusal>
    ensures { Verdict (ask (the_row row)) store.now nothing (judged_number result) }
{
    if !audit::is_good(store) {
        return Err(Refusal::Damaged);
    }
    if !rows::is_used(store, row as usize) {
        return Err(Refusal::NoSuchPlace);
    }
    Ok(())
}

// A signed length as a 16-bit two's complement number.
fn two_bytes(length: i32) -> usize
    requires { Stored length }
    ensures { (result ≡ twos_complement length) × (result < 65536) }
{
    length.rem_euclid(65536) as usize
}

// A row's length, link and inner row.
pub fn row(store: &[u8], row: u64) -> u64
    ensures { Asked (the_row row) store.now nothing result nothing }
{
    match judge_row(store, row) {
        Ok(()) => {
            let found = rows::row(store, row as usize);
            pack(false, found.link, two_bytes(found.length), found.inner)
        }
        Err(refusal) => refuse(refusal),
    }
}
