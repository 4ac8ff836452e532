// What the palindromes that end the letters at a right end come to, one link after the other:
// whether a given one is among them, and how many there are. The number of a row follows from that
// of its link, which was met before it.
#![tactic(auto)]

ghost use Rattle.std.specs.Prelude.{◌≡◌, true, ◌≤◌, ◌<◌, length, get_or};
ghost use Rattle.palindromes.specs.Place.{frequency};
ghost use Rattle.palindromes.specs.Occurrences.{occurrences_by_end};
ghost use Rattle.palindromes.specs.Node.{spelling_of};
ghost use Rattle.store.specs.Layout.{link_in, used_in, letters_in};
ghost use Rattle.store.specs.Good.{rule_of, node_in, Good};
ghost use Rattle.end_rows.specs.EndRows.{EndRows};
ghost use Rattle.suffix_palindromes.specs.Handed.{ending_with, chain_length, Hands};

use store::rows::Row;
use store::{header, rows};
use walk::replay::Replay;

// Marks the wanted row with 1 and any other as its link is marked, so that the mark tells whether
// the wanted row's palindrome ends the row's own; answers it, and 0 for a root.
fn mark(b: &[u8], marks: &mut [u8], wanted: usize, row: usize) -> usize
    requires good { Good b.now }
    requires wanted_value { (used_in b.now wanted ≡ true) × (2 ≤ wanted) }
    requires row_value { (used_in b.now row ≡ true) × (length marks.old ≡ 1026) }
    ensures { Hands b.now (ending_with (spelling_of (node_in b.now wanted))) row marks.old marks.new result }
{
    if row <= Row::EMPTY {
        return 0;
    }
    let marked = if row == wanted {
        1
    } else {
        marks[rows::link_of(b, row)]
    };
    marks[row] = marked;
    usize::from(marked)
}

// How often a row's palindrome stands: the marks of the rows at the right ends added up.
pub fn frequency(b: &[u8], row: usize) -> usize
    requires good { Good b.now }
    requires row_value { (used_in b.now row ≡ true) × (2 ≤ row) }
    ensures { result ≡ frequency (spelling_of (node_in b.now row)) (letters_in b.now) }
{
    let mut marks = [0u8; 1026];
    let mut total = 0;
    for (_, last) in Replay::new(b) {
        total += mark(b, &mut marks, row, last);
    }
    total
}

// How many palindromes end a row's own: one more than end its link's. Keeps the number, and
// answers it.
fn chain_length(b: &[u8], chains: &mut [u16], row: usize) -> usize
    requires good { Good b.now }
    requires row_value { (used_in b.now row ≡ true) × (length chains.old ≡ 1026) }
    requires row_bound { 2 ≤ row → get_or chains.old (link_in b.now row) 0 < 65535 }
    ensures { Hands b.now (chain_length (rule_of b.now)) row chains.old chains.new result }
{
    if row <= Row::EMPTY {
        return 0;
    }
    let more = chains[rows::link_of(b, row)] + 1;
    chains[row] = more;
    usize::from(more)
}

// How many palindromes stand, counted at their right ends.
pub fn occurrences_by_end(b: &[u8], ends: &[u16]) -> usize
    requires good { Good b.now }
    requires end_rows { EndRows b.now ends.now }
    ensures { result ≡ occurrences_by_end (rule_of b.now) (letters_in b.now) }
{
    let mut chains = [0u16; 1026];
    let mut total = 0;
    for end in &ends[..header::size(b)] {
        total += chain_length(b, &mut chains, usize::from(*end));
    }
    total
}
