// The host's call that adds a letter, at either end. It tests its store and its letter, asks
// nothing of the caller, and leaves every byte as the outcome of the call says.
#![tactic(auto)]

ghost use Rattle.std.specs.Prelude.{◌≡◌, ◌≤◌, length};
ghost use Rattle.palindromes.specs.Word.{is_letter};
ghost use Rattle.palindromes.specs.Refusal.{add};
ghost use Rattle.store.specs.Layout.{reading_in};
ghost use Rattle.store.specs.Side.{end_of};
ghost use Rattle.outcome.specs.Promise.{nothing, Promise, FreeRow};
ghost use Rattle.outcome.specs.Verdict.{Verdict, judged_number};
ghost use Rattle.addition_call.specs.Reported.{reports_in, reported_of};

use filling::fill;
use outcome::answers;
use outcome::answers::{Added, refuse};
use refusal::Refusal;
use store::header;
use store::letters::Side;

// Whether a host's number is one of the four letters. One that no byte holds is none: cut to a byte
// before the test, 321 would be taken for A.
fn is_letter(c: u64) -> bool
    ensures { result ≡ is_letter c }
{
    u8::try_from(c).is_ok_and(alphabet::is_letter)
}

// Why a letter cannot be added, if it cannot.
fn judge_add(store: &[u8], side: Side, letter: u64) -> Result<(), Refusal>
    ensures { Verdict (add (end_of side) letter) store.now nothing (judged_number result) }
{
    if !audit::is_good(store) {
        return Err(Refusal::Damaged);
    }
    if !is_letter(letter) {
        return Err(Refusal::NoLetter);
    }
    if header::capacity(store) <= header::size(store) {
        return Err(Refusal::TooManyLetters);
    }
    Ok(())
}

// Whether an addition reports how much its search passed: at the right end of a plain record, whose
// reading has the number 0.
fn reports(store: &[u8], side: Side) -> bool
    requires { 48 ≤ length store.now }
    ensures { result ≡ reports_in (reading_in store.now) (end_of side) }
{
    match side {
        Side::Right => header::reading(store) == 0,
        Side::Left => false,
    }
}

// An answer as it is reported: with what the search passed, or with 0.
fn reported(told: bool, added: Added) -> Added
    ensures { result ≡ reported_of told added }
{
    if told {
        return added;
    }
    match added {
        Added::New(row, _) => Added::New(row, 0),
        Added::Known(_) => Added::Known(0),
    }
}

// Adds a letter at a side: 1 and the new row, or 0 and row 0, and what the search passed.
pub fn add(store: &mut [u8], side: Side, letter: u64) -> u64
    ensures promise { Promise (add (end_of side) letter) store.old nothing result store.new nothing }
    ensures free { FreeRow (end_of side) letter store.old }
{
    match judge_add(store, side, letter) {
        Ok(()) => {
            let told = reports(store, side);
            let added = fill(store, side, &[letter as u8]);
            answers::answer_added(reported(told, added))
        }
        Err(refusal) => refuse(refusal),
    }
}
