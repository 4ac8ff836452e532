// The list of a good store's palindromes as BED lines, each at its first place, ordered by end. Of
// each palindrome that has stood it keeps one bit.
#![tactic(auto)]

mod meeting;

ghost use Rattle.std.specs.Prelude.{◌≡◌, true, ◌+◌, ◌*◌, ◌≤◌, length, replicate};
ghost use Rattle.std.proofs.lemmas.List.Edits.{sets};
ghost use Rattle.palindromes.specs.Bed.{is_identifier};
ghost use Rattle.palindromes.specs.Refusal.{scratch_size};
ghost use Rattle.store.specs.Layout.{size_in, letters_in};
ghost use Rattle.store.specs.Good.{Good};
ghost use Rattle.listing.specs.Listing.{listing_in, length_below};
ghost use Rattle.listing.specs.Reading.{SameBehind, ReadTo};

use bed::{line_length, put_line};
use meeting::meet;
use spelling::spelling_length;
use store::{bytes, header};
use walk::replay::Replay;

// How many bytes of scratch the list needs: a bit for each letter, in whole bytes.
pub fn scratch_size(b: &[u8]) -> usize
    requires { Good b.now }
    ensures { result ≡ scratch_size (length (letters_in b.now)) }
{
    header::size(b).div_ceil(8)
}

// Adds up the lengths of the lines whose palindromes have their ranks in the window from `from` on.
// It has 344 ranks, a bit each in as many bytes as the longest line has.
fn window_length(b: &[u8], name: &[u8], from: usize) -> usize
    requires good { Good b.now }
    requires name_value { is_identifier name.now ≡ true }
    ensures { result + length_below b.now name.now from (size_in b.now) ≡ length_below b.now name.now (from + 344) (size_in b.now) }
{
    let mut marks = [0u8; 43];
    let mut total = 0;
    for (k, row) in Replay::new(b) {
        if meet(b, &mut marks, from, row) {
            let end = k + 1;
            total += line_length(name, end - spelling_length(b, row), end);
        }
    }
    total
}

// How many bytes the list has: window by window, until every rank in use was in one.
pub fn listing_length(b: &[u8], name: &[u8]) -> usize
    requires good { Good b.now }
    requires name_value { is_identifier name.now ≡ true }
    ensures { result ≡ length (listing_in b.now name.now) }
{
    let mut total = 0;
    for from in (0..header::count(b)).step_by(344) {
        total += window_length(b, name, from);
    }
    total
}

// Writes the lines at the front of the buffer, with marks that begin empty and have a bit for
// every rank, and answers the place behind them.
fn put_lines(b: &[u8], name: &[u8], marks: &mut [u8], out: &mut [u8]) -> usize
    requires good { Good b.now }
    requires name_value { is_identifier name.now ≡ true }
    requires read_to { ReadTo b.now 0 0 1 marks.old × (size_in b.now ≤ 8 * length marks.old) }
    requires name_in_bounds { length (listing_in b.now name.now) ≤ length out.old }
    ensures written { out.new ≡ sets out.old 0 (listing_in b.now name.now) }
    ensures behind { result ≡ length (listing_in b.now name.now) }
    ensures kept { SameBehind (scratch_size (size_in b.now)) marks.old marks.new }
{
    let mut at = 0;
    for (k, row) in Replay::new(b) {
        if meet(b, marks, 0, row) {
            let end = k + 1;
            at = put_line(out, at, name, end - spelling_length(b, row), end);
        }
    }
    at
}

// Writes the list at the front of `out` and answers how many bytes it has. Of the scratch, a bit
// for each letter serves as marks, and these bytes are left nought.
pub fn list(b: &[u8], name: &[u8], scratch: &mut [u8], out: &mut [u8]) -> usize
    requires good { Good b.now }
    requires name_value { is_identifier name.now ≡ true }
    requires b_in_bounds { scratch_size (length (letters_in b.now)) ≤ length scratch.old }
    requires name_in_bounds { length (listing_in b.now name.now) ≤ length out.old }
    ensures cleared { scratch.new ≡ sets scratch.old 0 (replicate (scratch_size (length (letters_in b.now))) 0) }
    ensures written { out.new ≡ sets out.old 0 (listing_in b.now name.now) }
    ensures behind { result ≡ length (listing_in b.now name.now) }
{
    let used = scratch_size(b);
    bytes::clear(scratch, used);
    let at = put_lines(b, name, scratch, out);
    bytes::clear(scratch, used);
    at
}
