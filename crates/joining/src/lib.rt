// A letter joins or leaves an end of the record's letters, which move where it is the left end; and which letter stands there.
#![tactic(auto)]

ghost use Rattle.std.specs.Prelude.{◌≡◌, ◌++◌, ◌∷◌, [], ◌+◌, ◌<◌, ◌≤◌, length, take, drop};
ghost use Rattle.std.proofs.lemmas.List.Edits.{sets};
ghost use Rattle.palindromes.specs.End.{added, removed, letter_at};
ghost use Rattle.store.specs.Side.{end_of};

use store::letters::Side;

// The letter at a side of the n letters at `base`.
pub fn letter_at(b: &[u8], base: usize, n: usize, side: Side) -> u8
    requires { (base + n ≤ length b.now) × (0 < n) }
    ensures { result ≡ letter_at (end_of side) (take n (drop base b.now)) }
{
    match side {
        Side::Left => b[base],
        Side::Right => b[base + (n - 1)],
    }
}

// Adds the letter c at a side of the n letters at `base`.
pub fn join(b: &mut [u8], base: usize, n: usize, side: Side, c: u8)
    requires { base + n < length b.old }
    ensures { b.new ≡ sets b.old base (added (end_of side) c (take n (drop base b.old))) }
{
    match side {
        Side::Left => {
            b.copy_within(base..base + n, base + 1);
            b[base] = c;
        }
        Side::Right => {
            b[base + n] = c;
        }
    }
}

// Removes the letter at a side of the n letters at `base`, and clears the place that it leaves.
pub fn leave(b: &mut [u8], base: usize, n: usize, side: Side)
    requires { (base + n ≤ length b.old) × (0 < n) }
    ensures { b.new ≡ sets b.old base (removed (end_of side) (take n (drop base b.old)) ++ (0 ∷ [])) }
{
    match side {
        Side::Left => {
            b.copy_within(base + 1..base + n, base);
            b[base + (n - 1)] = 0;
        }
        Side::Right => {
            b[base + (n - 1)] = 0;
        }
    }
}
