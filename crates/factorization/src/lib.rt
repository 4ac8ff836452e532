// The factorization of a record into the fewest palindromes: for each right end how many there
// are of the letters up to it, and where the last of them begins; and their ends, traced back
// from the last one.
#![tactic(auto)]

ghost use Rattle.std.specs.Prelude.{◌≡◌, ◌+◌, ◌*◌, ◌≤◌, length, replicate};
ghost use Rattle.std.proofs.lemmas.List.Edits.{sets};
ghost use Rattle.palindromes.specs.Factorization.{palindromic_length, factor_ends, end_bytes};
ghost use Rattle.series.specs.Series.{series_steps, most_series};
ghost use Rattle.store.specs.Good.{rule_of, Good};
ghost use Rattle.store.specs.Layout.{size_in, reading_in, letters_in};
ghost use Rattle.end_rows.specs.EndRows.{EndRows};
ghost use Rattle.last_factor.specs.Kept.{Known};
ghost use Rattle.factorization.specs.LastStarts.{LastStarts};

use end_rows::rows_at_ends;
use last_factor::last_factor;
use store::header;

// For each right end the fewest factors of the letters up to it, and where the last of them
// begins in place of the end's row. Answers how many series were passed.
fn fill(b: &[u8], lasts: &mut [u16], factors: &mut [u16], memos: &mut [u32]) -> usize
    requires good { Good b.now }
    requires b_value { (reading_in b.now ≡ 0) × EndRows b.now lasts.old }
    requires factors_value { (factors.old ≡ replicate 1025 0) × (memos.old ≡ replicate 1026 0) }
    ensures known { Known b.now (size_in b.now + 1) factors.new }
    ensures starts { LastStarts b.now (size_in b.now) lasts.new }
    ensures steps { result ≡ series_steps (rule_of b.now) (letters_in b.now) }
    ensures few { result ≤ size_in b.now * most_series }
{
    let mut steps = 0;
    for k in 0..header::size(b) {
        let found = last_factor(b, k + 1, usize::from(lasts[k]), factors, memos);
        steps += found.turns;
        lasts[k] = found.start as u16;
        factors[k + 1] = factors[found.start] + 1;
    }
    steps
}

// The fewest factors of a record, and how many series were passed to find them.
#[derive(Clone, Copy)]
pub struct Factors {
    pub number: usize,
    pub steps: usize,
}

// For each right end where the last factor of the letters up to it begins. Answers how many
// factors the whole record has.
pub fn factorize(b: &[u8], lasts: &mut [u16]) -> Factors
    requires good { Good b.now × (reading_in b.now ≡ 0) }
    requires b_in_bounds { size_in b.now ≤ length lasts.old }
    ensures number { result.number ≡ palindromic_length (rule_of b.now) (letters_in b.now) }
    ensures starts { LastStarts b.now (size_in b.now) lasts.new }
    ensures steps { result.steps ≡ series_steps (rule_of b.now) (letters_in b.now) }
    ensures few { result.steps ≤ size_in b.now * most_series }
{
    rows_at_ends(b, lasts);
    let mut factors = [0u16; 1025];
    let mut memos = [0u32; 1026];
    let steps = fill(b, lasts, &mut factors, &mut memos);
    let number = usize::from(factors[header::size(b)]);
    Factors { number, steps }
}

// Writes the ends of the factors at the front of the buffer, two bytes each, low byte first. They
// are traced back from the last one.
pub fn put_ends(b: &[u8], lasts: &[u16], number: usize, out: &mut [u8])
    requires good { Good b.now × (reading_in b.now ≡ 0) }
    requires last_starts { LastStarts b.now (size_in b.now) lasts.now }
    requires number_value { (number ≡ palindromic_length (rule_of b.now) (letters_in b.now)) × (2 * number ≤ length out.old) }
    ensures { out.new ≡ sets out.old 0 (end_bytes (factor_ends (rule_of b.now) (letters_in b.now))) }
{
    let mut at = 2 * number;
    let mut end = header::size(b);
    while 0 < end {
        at -= 2;
        out[at..at + 2].copy_from_slice(&(end as u16).to_le_bytes());
        end = usize::from(lasts[end - 1]);
    }
}
