// The minimal unique palindromes of a good store, by where they stand. Each is the longest
// palindrome at its right end and first met there, so one pass over the rows that are first met
// has them in the order of their ends, which is that of their starts.
#![tactic(auto)]

ghost use Rattle.std.specs.Prelude.{◌≡◌, true, [], ◌∷◌, ◌+◌, ◌≤◌, ◌<◌, length};
ghost use Rattle.std.proofs.lemmas.List.Edits.{sets};
ghost use Rattle.palindromes.specs.Node.{spelling_of};
ghost use Rattle.palindromes.specs.Interval.{interval, interval_bytes};
ghost use Rattle.palindromes.specs.MinimalUnique.{is_minimal_unique, minimal_unique};
ghost use Rattle.store.specs.Layout.{size_in, used_in, letters_in};
ghost use Rattle.store.specs.Good.{rule_of, node_in, Good};
ghost use Rattle.end_rows.specs.EndRows.{FirstRows};
ghost use Rattle.unique_rows.specs.Marks.{Marks};

use spelling::spelling_length;
use store::{header, rows};

// Whether a row's palindrome is minimal unique: it stands once only, and its inner row is a
// root's or stands at least twice.
fn is_minimal(b: &[u8], marks: &[u8], row: usize) -> bool
    requires good { Good b.now }
    requires marks { Marks b.now (size_in b.now) marks.now }
    requires row_value { used_in b.now row ≡ true }
    ensures { result ≡ is_minimal_unique (rule_of b.now) (letters_in b.now) (spelling_of (node_in b.now row)) }
{
    marks[row] == 1 && marks[rows::inner_of(b, row)] == 2
}

// How many minimal unique palindromes there are.
pub fn count_minimal(b: &[u8], firsts: &[u16], marks: &[u8]) -> usize
    requires good { Good b.now }
    requires first_rows { FirstRows b.now firsts.now }
    requires marks { Marks b.now (size_in b.now) marks.now }
    ensures { result ≡ length (minimal_unique (rule_of b.now) (letters_in b.now)) }
{
    let mut total = 0;
    for first in &firsts[..header::size(b)] {
        if is_minimal(b, marks, usize::from(*first)) {
            total += 1;
        }
    }
    total
}

// Writes a start and an end from the place `at` on, two bytes each, low byte first, and answers
// the place behind them.
fn put_interval(out: &mut [u8], at: usize, start: usize, end: usize) -> usize
    requires at_in_bounds { at + 4 ≤ length out.old }
    requires start_bound { (start < 65536) × (end < 65536) }
    ensures written { out.new ≡ sets out.old at (interval_bytes (interval start end ∷ [])) }
    ensures behind { result ≡ at + 4 }
{
    out[at..at + 2].copy_from_slice(&(start as u16).to_le_bytes());
    out[at + 2..at + 4].copy_from_slice(&(end as u16).to_le_bytes());
    at + 4
}

// Writes where each of them stands at the front of the buffer.
pub fn put_minimal(b: &[u8], firsts: &[u16], marks: &[u8], out: &mut [u8])
    requires good { Good b.now }
    requires first_rows { FirstRows b.now firsts.now }
    requires marks { Marks b.now (size_in b.now) marks.now }
    requires b_in_bounds { length (interval_bytes (minimal_unique (rule_of b.now) (letters_in b.now))) ≤ length out.old }
    ensures { out.new ≡ sets out.old 0 (interval_bytes (minimal_unique (rule_of b.now) (letters_in b.now))) }
{
    let mut at = 0;
    for (k, first) in firsts[..header::size(b)].iter().enumerate() {
        let row = usize::from(*first);
        if is_minimal(b, marks, row) {
            let end = k + 1;
            at = put_interval(out, at, end - spelling_length(b, row), end);
        }
    }
}
