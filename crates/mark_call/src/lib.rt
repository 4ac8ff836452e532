// The host's call that marks a sheet of BED lines. It tests its store, the identifier, the sheet and the
// mark sheet, asks nothing of the caller, and leaves every byte as the outcome of the call says.
#![tactic(auto)]

ghost use Rattle.std.specs.Prelude.{◌≡◌, ◌&&◌, eqb};
ghost use Rattle.palindromes.specs.Refusal.{mark};
ghost use Rattle.outcome.specs.Promise.{AskedInto};
ghost use Rattle.mark_call.specs.Told.{told};

use identifier::is_identifier;
use outcome::answers::refuse;
use outcome::pack;
use refusal::Refusal;
use tally::Tally;

// Whether counts are those of full marks.
fn is_full(counts: Tally) -> bool
    ensures { result ≡ (eqb counts.repeated 0 && eqb counts.wrong 0 && eqb counts.missing 0) }
{
    counts.repeated == 0 && counts.wrong == 0 && counts.missing == 0
}

// Whether a sheet has full marks, with its four counts in the place of those of the mark sheet; or why
// it was not marked.
fn try_mark(store: &[u8], name: &[u8], sheet: &[u8], marks: &mut [u8]) -> Result<bool, Refusal>
    ensures { AskedInto (mark name.now sheet.now) store.now marks.old (told result) marks.new }
{
    if !audit::is_good(store) {
        return Err(Refusal::Damaged);
    }
    if !is_identifier(name) {
        return Err(Refusal::Identifier);
    }
    let counts = marking::mark_sheet(store, name, sheet).ok_or(Refusal::NoSheet)?;
    if marks.len() < 32 {
        return Err(Refusal::ShortBuffer);
    }
    tally::update(marks, counts);
    Ok(is_full(counts))
}

// Marks a sheet: its four counts replace those of the mark sheet, and the answer is whether it has full
// marks.
pub fn mark_list(store: &[u8], name: &[u8], sheet: &[u8], marks: &mut [u8]) -> u64
    ensures { AskedInto (mark name.now sheet.now) store.now marks.old result marks.new }
{
    match try_mark(store, name, sheet, marks) {
        Ok(full) => pack(full, 0, 0, 0),
        Err(refusal) => refuse(refusal),
    }
}
