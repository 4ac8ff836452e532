// How often each palindrome stands. First it is counted how often each is the longest at a right
// end; then the number of each row is added to that of its link, backwards in the order in which
// the rows were met, so that a row has its whole number before it is handed on.
#![tactic(auto)]

ghost use Rattle.std.specs.Prelude.{◌≡◌, replicate};
ghost use Rattle.palindromes.specs.Occurrences.{occurrences_by_row};
ghost use Rattle.store.specs.Layout.{size_in, letters_in};
ghost use Rattle.store.specs.Good.{rule_of, Good};
ghost use Rattle.end_rows.specs.EndRows.{EndRows, FirstRows};
ghost use Rattle.frequencies.specs.Frequencies.{RowFrequencies};
ghost use Rattle.frequencies.specs.Counts.{HandedFrom, Handable, handed, handed_on};

use store::rows::Row;
use store::{header, rows};

// Counts at each row the right ends at which its palindrome is the longest, and leaves at each
// right end the row that is first met there, or a root's.
fn count_longest(b: &[u8], ends: &mut [u16], counts: &mut [u16])
    requires good { Good b.now }
    requires end_rows { EndRows b.now ends.old }
    requires counts_value { counts.old ≡ replicate 1026 0 }
    ensures first { FirstRows b.now ends.new }
    ensures counted { HandedFrom b.now (size_in b.now) counts.new }
{
    let n = header::size(b);
    for end in ends[..n].iter_mut() {
        let row = usize::from(*end);
        let count = counts[row];
        if count != 0 {
            *end = 0;
        }
        counts[row] = count + 1;
    }
}

// Adds a row's number to its link's, if that is no root's, and answers it; 0 for a root.
fn hand_on(b: &[u8], counts: &mut [u16], row: usize) -> usize
    requires good { Good b.now }
    requires handable { Handable b.now counts.old row }
    ensures { (result ≡ handed counts.old row) × (counts.new ≡ handed_on b.now counts.old row) }
{
    if row <= Row::EMPTY {
        return 0;
    }
    let count = counts[row];
    let link = rows::link_of(b, row);
    if Row::EMPTY < link {
        counts[link] += count;
    }
    count as usize
}

// Makes each number the frequency of its row, from the last row met to the first, and answers
// their sum.
fn add_along_links(b: &[u8], firsts: &[u16], counts: &mut [u16]) -> usize
    requires good { Good b.now }
    requires first_rows { FirstRows b.now firsts.now }
    requires handed_from { HandedFrom b.now (size_in b.now) counts.old }
    ensures each { RowFrequencies b.now counts.new }
    ensures total { result ≡ occurrences_by_row (rule_of b.now) (letters_in b.now) }
{
    let mut total = 0;
    for first in firsts[..header::size(b)].iter().rev() {
        total += hand_on(b, counts, usize::from(*first));
    }
    total
}

// How many palindromes stand, counted row by row. The rows at the right ends are used up.
pub fn occurrences_by_row(b: &[u8], ends: &mut [u16]) -> usize
    requires good { Good b.now }
    requires end_rows { EndRows b.now ends.old }
    ensures { result ≡ occurrences_by_row (rule_of b.now) (letters_in b.now) }
{
    let mut counts = [0u16; 1026];
    count_longest(b, ends, &mut counts);
    add_along_links(b, ends, &mut counts)
}
