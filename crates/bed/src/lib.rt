// BED lines, an identifier, a tab, the start, a tab, the end, an LF: each function is proved to
// answer, or to write, what specs/Bed.antt of the crate palindromes says. What is written goes into a
// buffer that the caller lends, from a place on, and the answer is the place behind it.
#![tactic(auto)]

ghost use Rattle.std.specs.Prelude.{◌≡◌, ◌+◌, ◌<◌, ◌≤◌, length};
ghost use Rattle.std.proofs.lemmas.List.Edits.{sets};
ghost use Rattle.palindromes.specs.Bed.{bed_line};

use decimal::{digits, put_decimal};

// Writes the bytes of a word from the place `at` on, and answers the place behind them.
pub fn copy(out: &mut [u8], at: usize, word: &[u8]) -> usize
    requires { at + length word.now ≤ length out.old }
    ensures written { out.new ≡ sets out.old at word.now }
    ensures behind { result ≡ at + length word.now }
{
    let end = at + word.len();
    out[at..end].copy_from_slice(word);
    end
}

// How many bytes a line has.
pub fn line_length(name: &[u8], start: usize, end: usize) -> usize
    requires { (length name.now ≤ 32) × (start < 65536) × (end < 65536) }
    ensures { (result ≡ length (bed_line name.now start end)) × (result ≤ 45) }
{
    name.len() + digits(start) + digits(end) + 3
}

// Writes a line from the place `at` on, and answers the place behind it.
pub fn put_line(out: &mut [u8], at: usize, name: &[u8], start: usize, end: usize) -> usize
    requires name_len_bound { (length name.now ≤ 32) × (start < 65536) × (end < 65536) }
    requires end_in_bounds { at + length (bed_line name.now start end) ≤ length out.old }
    ensures written { out.new ≡ sets out.old at (bed_line name.now start end) }
    ensures behind { result ≡ at + length (bed_line name.now start end) }
{
    let tab = copy(out, at, name);
    out[tab] = b'\t';
    let second = put_decimal(out, tab + 1, start);
    out[second] = b'\t';
    let last = put_decimal(out, second + 1, end);
    out[last] = b'\n';
    last + 1
}
