// Spelling a row of a good store: how many letters its palindrome has, and the palindrome itself,
// written outwards from the inner row into a lent buffer.
#![tactic(auto)]

ghost use Rattle.std.specs.Prelude.{◌≡◌, true, ◌+◌, ◌≤◌, ◌<◌, length};
ghost use Rattle.std.proofs.lemmas.List.Edits.{sets};
ghost use Rattle.palindromes.specs.Node.{spelling_of};
ghost use Rattle.partners.specs.Table.{PartnersIn};
ghost use Rattle.store.specs.Layout.{reading_in, outer_in, used_in};
ghost use Rattle.store.specs.Good.{node_in, Good};

use partners::{partner_in, table};
use store::rows::Row;
use store::{header, lengths, rows};

// How many letters row r spells.
pub fn spelling_length(b: &[u8], r: usize) -> usize
    requires good { Good b.now }
    requires r_value { used_in b.now r ≡ true }
    ensures { result ≡ length (spelling_of (node_in b.now r)) }
{
    if r == Row::IMAGINARY {
        0
    } else {
        lengths::to_stored(rows::length_of(b, r)) - 1
    }
}

// The last letter of row r's palindrome.
fn last_letter(b: &[u8], r: usize) -> u8
    requires good { Good b.now }
    requires r_value { (used_in b.now r ≡ true) × (2 ≤ r) }
    ensures { result ≡ outer_in b.now r }
{
    rows::outer_of(b, r) as u8
}

// Writes row r's palindrome from the place `at` on: first what stands between its outer letters,
// then these. The roots spell nothing.
fn spell_at(b: &[u8], partners: &[u8; 256], r: usize, out: &mut [u8], at: usize)
    requires good { Good b.now × PartnersIn (reading_in b.now) partners.now }
    requires r_value { used_in b.now r ≡ true }
    requires r_in_bounds { at + length (spelling_of (node_in b.now r)) ≤ length out.old }
    ensures { out.new ≡ sets out.old at (spelling_of (node_in b.now r)) }
{
    if r <= Row::EMPTY {
        return;
    }
    let c = last_letter(b, r);
    let inner = rows::inner_of(b, r);
    if inner == Row::IMAGINARY {
        out[at] = c;
        return;
    }
    spell_at(b, partners, inner, out, at + 1);
    out[at] = partner_in(partners, c);
    out[at + spelling_length(b, r) - 1] = c;
}

// Writes row r's palindrome at the front of the buffer, and answers how many letters it has.
pub fn spell(b: &[u8], r: usize, out: &mut [u8]) -> usize
    requires good { Good b.now }
    requires r_value { used_in b.now r ≡ true }
    requires r_in_bounds { length (spelling_of (node_in b.now r)) ≤ length out.old }
    ensures written { out.new ≡ sets out.old 0 (spelling_of (node_in b.now r)) }
    ensures letters { result ≡ length (spelling_of (node_in b.now r)) }
{
    let partners = table(header::reading(b));
    spell_at(b, &partners, r, out, 0);
    spelling_length(b, r)
}
