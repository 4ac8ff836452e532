// The search for a piece among the palindromes of a good store's record: the piece is compared with
// its reversal from the outside, and one that agrees is looked for from its centre outwards.
#![tactic(auto)]

ghost use Rattle.std.specs.Prelude.{◌≡◌, true, cond, ◌<◌, ◌%◌, min, eqb, length};
ghost use Rattle.palindromes.specs.Word.{all_letters};
ghost use Rattle.palindromes.specs.Palindrome.{Symmetric};
ghost use Rattle.store.specs.Good.{rule_of, Good};
ghost use Rattle.search.specs.Search.{reached_in, found_in};

use mismatch::first_mismatch;
use outcome::answers::Found;
use partners::table;
use store::rows::Row;
use store::{header, rows};

// The row in the centre of a palindrome of n letters: the empty string's for an even number, the
// imaginary string's for an odd one.
fn centre(n: usize) -> usize
    ensures { result ≡ cond (eqb (n % 2) 0) 1 0 }
{
    if n % 2 == 0 {
        Row::EMPTY
    } else {
        Row::IMAGINARY
    }
}

// From the centre of a piece outwards, by an edge for each letter of its right half: to the piece's
// row, or to none where an edge is missing.
fn outwards(b: &[u8], piece: &[u8]) -> Option<usize>
    requires good { Good b.now }
    requires piece_nonzero { (0 < length piece.now) × (all_letters piece.now ≡ true) × Symmetric (rule_of b.now) piece.now }
    ensures { result ≡ reached_in b.now piece.now }
{
    let mut row = centre(piece.len());
    for &c in &piece[piece.len() / 2..] {
        row = rows::edge_of(b, row, c);
        if row == Row::IMAGINARY {
            return None;
        }
    }
    Some(row)
}

// The number of a pair as an answer holds it: what two bytes cannot tell is the largest that they can.
fn reported(pair: usize) -> usize
    ensures { result ≡ min pair 65535 }
{
    pair.min(65535)
}

// Where the piece and its reversal disagree first, and the row of a piece that is a palindrome of
// the record.
pub fn find(b: &[u8], piece: &[u8]) -> Found
    requires good { Good b.now }
    requires piece_nonzero { (0 < length piece.now) × (all_letters piece.now ≡ true) }
    ensures { result ≡ found_in b.now piece.now }
{
    let reading = header::reading(b);
    let partners = table(reading);
    let pair = first_mismatch(&partners, piece, piece.len() - piece.len() / 2);
    if pair != 0 {
        return Found::Absent(reported(pair));
    }
    if header::size(b) < piece.len() {
        return Found::Absent(0);
    }
    match outwards(b, piece) {
        Some(row) => Found::At(row, 0),
        None => Found::Absent(0),
    }
}
