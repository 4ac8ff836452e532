// The host's call that spells a row. It tests its store and its buffer, asks nothing of the caller, and
// leaves every byte as the outcome of the call says.
#![tactic(auto)]

ghost use Rattle.std.specs.Prelude.{[]};
ghost use Rattle.palindromes.specs.Refusal.{ask, spell};
ghost use Rattle.outcome.specs.Promise.{lending, AskedInto};
ghost use Rattle.outcome.specs.Verdict.{Verdict, judged_number};

use outcome::answers::refuse;
use outcome::pack;
use questions::rows;
use refusal::Refusal;

// Why a row cannot be spelt, if it cannot.
fn judge_spell(store: &[u8], row: u64, out: &[u8]) -> Result<(), Refusal>
    ensures { Verdict (ask (spell row)) store.now (lending [] out.now) (judged_number result) }
{
    if !audit::is_good(store) {
        return Err(Refusal::Damaged);
    }
    if !rows::is_used(store, row as usize) {
        return Err(Refusal::NoSuchPlace);
    }
    if out.len() < spelling::spelling_length(store, row as usize) {
        return Err(Refusal::ShortBuffer);
    }
    Ok(())
}

// Writes a row's repeat, and answers how many bytes it has.
pub fn spell_row(store: &[u8], row: u64, out: &mut [u8]) -> u64
    ensures { AskedInto (spell row) store.now out.old result out.new }
{
    match judge_spell(store, row, out) {
        Ok(()) => pack(false, 0, spelling::spell(store, row as usize, out), 0),
        Err(refusal) => refuse(refusal),
    }
}
