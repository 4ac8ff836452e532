// A record printed as in the GenBank flat file, as specs/Genbank.antt of the crate palindromes says.
// What is written goes into a buffer that the caller lends, from a place on, and the answer is the
// place behind it.
#![tactic(auto)]

ghost use Rattle.std.specs.Prelude.{◌≡◌, [], ◌∷◌, ◌++◌, map, ◌+◌, ◌<◌, ◌≤◌, length, get_or, set, take};
ghost use Rattle.std.proofs.lemmas.List.Edits.{sets};
ghost use Rattle.palindromes.specs.Word.{Word};
ghost use Rattle.palindromes.specs.Bed.{decimal};
ghost use Rattle.palindromes.specs.Genbank.{lower, cut, groups, right_justified, origin_line, genbank};
ghost use Rattle.genbank.specs.Line.{SixOfTen, Line};

use bed::copy;
use decimal::{digits, put_decimal};

// The small letter of a capital; any other byte itself.
#[tactic(auto, unfolding(palindromes::specs::Genbank::lower))]
fn lower(b: u8) -> u8
    ensures { result ≡ lower b }
{
    b.to_ascii_lowercase()
}

// Puts at most ten letters in lower case to the front of group g of a line.
fn set_group(line: &mut [[u8; 10]; 6], g: usize, w: &[u8])
    requires { SixOfTen line.old × (g < 6) × (length w.now ≤ 10) }
    ensures { line.new ≡ set line.old g (sets (get_or line.old g []) 0 (map lower w.now)) }
{
    for (i, letter) in w.iter().enumerate() {
        line[g][i] = lower(*letter);
    }
}

// A line: six groups of ten, of which the last may be shorter and the later ones empty.
fn line(w: &[u8]) -> [[u8; 10]; 6]
    requires { length w.now ≤ 60 }
    ensures { Line w.now result }
{
    let mut line = [[b' '; 10]; 6];
    for (g, group) in w.chunks(10).enumerate() {
        set_group(&mut line, g, group);
    }
    line
}

// Writes a blank and the first `count` letters of group g.
fn put_group(out: &mut [u8], at: usize, line: &[[u8; 10]; 6], g: usize, count: usize) -> usize
    requires six_of_ten { SixOfTen line.now × (g < 6) × (count ≤ 10) }
    requires count_in_bounds { at + (count + 1) ≤ length out.old }
    ensures written { out.new ≡ sets out.old at (32 ∷ take count (get_or line.now g [])) }
    ensures behind { result ≡ at + (count + 1) }
{
    out[at] = b' ';
    let from = at + 1;
    for (i, letter) in line[g][..count].iter().enumerate() {
        out[from + i] = *letter;
    }
    from + count
}

// Writes the groups of a line.
fn put_groups(out: &mut [u8], at: usize, w: &[u8]) -> usize
    requires { (length w.now ≤ 60) × (at + length (groups (cut 10 w.now)) ≤ length out.old) }
    ensures written { out.new ≡ sets out.old at (groups (cut 10 w.now)) }
    ensures behind { result ≡ at + length (groups (cut 10 w.now)) }
{
    let groups = line(w);
    let mut end = at;
    for (g, group) in w.chunks(10).enumerate() {
        end = put_group(out, end, &groups, g, group.len());
    }
    end
}

// Writes a place, right-justified in nine columns.
fn put_place(out: &mut [u8], at: usize, place: usize) -> usize
    requires { (place < 65536) × (at + 9 ≤ length out.old) }
    ensures written { out.new ≡ sets out.old at (right_justified 9 (decimal place)) }
    ensures behind { result ≡ at + 9 }
{
    let first = at + 9 - digits(place);
    out[at..first].fill(b' ');
    put_decimal(out, first, place)
}

// Writes a line of letters, the first of which has the place, and its LF.
fn put_line(out: &mut [u8], at: usize, place: usize, w: &[u8]) -> usize
    requires place_bound { (place < 65536) × (length w.now ≤ 60) }
    requires w_in_bounds { at + (length (origin_line place w.now) + 1) ≤ length out.old }
    ensures written { out.new ≡ sets out.old at (origin_line place w.now ++ (10 ∷ [])) }
    ensures behind { result ≡ at + (length (origin_line place w.now) + 1) }
{
    let first = put_place(out, at, place);
    let end = put_groups(out, first, w);
    out[end] = b'\n';
    end + 1
}

// How many bytes the page of n letters has: ten for the two outer lines, the letters, a blank before
// each group of ten, and for each line of sixty its nine columns and its LF.
pub fn page_length(n: usize) -> usize
    requires { n ≤ 1024 }
    ensures { (s : Word) → length s ≡ n → result ≡ length (genbank s) }
{
    10 + n + n.div_ceil(10) + 10 * n.div_ceil(60)
}

// Writes the page at the front of the buffer, and answers how many bytes it has.
pub fn put_page(out: &mut [u8], letters: &[u8]) -> usize
    requires letters_len_bound { length letters.now ≤ 1024 }
    requires letters_in_bounds { length (genbank letters.now) ≤ length out.old }
    ensures written { out.new ≡ sets out.old 0 (genbank letters.now) }
    ensures behind { result ≡ length (genbank letters.now) }
{
    let mut at = copy(out, 0, b"ORIGIN\n");
    for (n, line) in letters.chunks(60).enumerate() {
        at = put_line(out, at, 60 * n + 1, line);
    }
    copy(out, at, b"//\n")
}
