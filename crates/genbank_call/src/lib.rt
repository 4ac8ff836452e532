// The host's call that prints the record as in GenBank. It tests its store and its buffer, asks nothing
// of the caller, and leaves every byte as the outcome of the call says.
#![tactic(auto)]

ghost use Rattle.std.specs.Prelude.{[], ◌≡◌, ◌≤◌, length};
ghost use Rattle.std.proofs.lemmas.List.Edits.{sets};
ghost use Rattle.palindromes.specs.Genbank.{genbank};
ghost use Rattle.palindromes.specs.Refusal.{ask, page};
ghost use Rattle.store.specs.Layout.{letters_in};
ghost use Rattle.store.specs.Good.{Good};
ghost use Rattle.outcome.specs.Promise.{lending, AskedInto};
ghost use Rattle.outcome.specs.Verdict.{Verdict, judged_number};

use genbank::{page_length, put_page};
use outcome::answers::refuse;
use outcome::pack;
use questions::record;
use refusal::Refusal;
use walk::frame::frame_of;

// Writes the page of a good store's letters at the front of the buffer, and answers how many bytes it has.
fn write_page(b: &[u8], out: &mut [u8]) -> usize
    requires good { Good b.now }
    requires b_in_bounds { length (genbank (letters_in b.now)) ≤ length out.old }
    ensures written { out.new ≡ sets out.old 0 (genbank (letters_in b.now)) }
    ensures behind { result ≡ length (genbank (letters_in b.now)) }
{
    let f = frame_of(b);
    let base = f.base;
    let end = base + f.n;
    put_page(out, &b[base..end])
}

// Why the page cannot be written, if it cannot.
fn judge_page(store: &[u8], out: &[u8]) -> Result<(), Refusal>
    ensures { Verdict (ask page) store.now (lending [] out.now) (judged_number result) }
{
    if !audit::is_good(store) {
        return Err(Refusal::Damaged);
    }
    if out.len() < page_length(record::length(store)) {
        return Err(Refusal::ShortBuffer);
    }
    Ok(())
}

// Prints the record, and answers how many bytes the page has.
pub fn print_record(store: &[u8], out: &mut [u8]) -> u64
    ensures { AskedInto page store.now out.old result out.new }
{
    match judge_page(store, out) {
        Ok(()) => pack(false, 0, write_page(store, out), 0),
        Err(refusal) => refuse(refusal),
    }
}
