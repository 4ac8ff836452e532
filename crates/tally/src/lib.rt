// A mark sheet: how many lines of a sheet are right, repeated and wrong, and how many palindromes are
// missing. Within the library it is a struct, and the host lends it as 32 bytes.
#![tactic(auto)]

ghost use Rattle.std.specs.Prelude.{◌≡◌, ◌+◌, ◌≤◌, length, take, drop};
ghost use Rattle.std.proofs.lemmas.List.Edits.{sets};
ghost use Rattle.palindromes.specs.Marks.{low_bytes, from_bytes, counts_bytes, counts_read};
ghost use Rattle.tally.specs.Counts.{counts_in};

#[derive(Clone, Copy)]
pub struct Tally {
    pub right: u64,
    pub repeated: u64,
    pub wrong: u64,
    pub missing: u64,
}

// Replaces the four counts of a tally where it is kept.
pub fn replace(tally: &mut Tally, counts: Tally)
    ensures { tally.new ≡ counts }
{
    *tally = counts;
}

// The same with plain parameters: the tally that was, with its counts replaced. It lends a local; its
// callers have no reference to a struct.
pub fn replaced(was: Tally, counts: Tally) -> Tally
    ensures { result ≡ counts }
{
    let mut tally = was;
    replace(&mut tally, counts);
    tally
}

// The number in eight bytes from a place on, low byte first.
fn count_at(sheet: &[u8], at: usize) -> u64
    requires { at + 8 ≤ length sheet.now }
    ensures { result ≡ from_bytes (take 8 (drop at sheet.now)) }
{
    let mut bytes = [0u8; 8];
    bytes.copy_from_slice(&sheet[at..at + 8]);
    u64::from_le_bytes(bytes)
}

// Writes a number as eight bytes from a place on, low byte first.
fn put_count(sheet: &mut [u8], at: usize, n: u64)
    requires { at + 8 ≤ length sheet.old }
    ensures { sheet.new ≡ sets sheet.old at (low_bytes 8 n) }
{
    sheet[at..at + 8].copy_from_slice(&n.to_le_bytes());
}

// The counts that a mark sheet's bytes hold.
fn tally_in(sheet: &[u8]) -> Tally
    requires { 32 ≤ length sheet.now }
    ensures { counts_in result ≡ counts_read sheet.now }
{
    Tally {
        right: count_at(sheet, 0),
        repeated: count_at(sheet, 8),
        wrong: count_at(sheet, 16),
        missing: count_at(sheet, 24),
    }
}

// Writes the four counts as the first 32 bytes. Later bytes stay.
fn put_tally(sheet: &mut [u8], t: Tally)
    requires { 32 ≤ length sheet.old }
    ensures { sheet.new ≡ sets sheet.old 0 (counts_bytes (counts_in t)) }
{
    put_count(sheet, 0, t.right);
    put_count(sheet, 8, t.repeated);
    put_count(sheet, 16, t.wrong);
    put_count(sheet, 24, t.missing);
}

// Replaces the four counts of a mark sheet that is lent as bytes.
pub fn update(sheet: &mut [u8], counts: Tally)
    requires { 32 ≤ length sheet.old }
    ensures { sheet.new ≡ sets sheet.old 0 (counts_bytes (counts_in counts)) }
{
    let was = tally_in(sheet);
    put_tally(sheet, replaced(was, counts));
}
