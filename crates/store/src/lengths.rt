// Signed lengths. A row stores its length plus one, so that the imaginary string's -1 is a 0; that
// bias lives here and in the functions that read and write a row.
ghost use Rattle.std.specs.Prelude.{◌≡◌, ℕ, ◌+◌, ◌<◌, pos};
ghost use Rattle.std.proofs.Math.IntN.{pred_ℤ};
ghost use Rattle.store.specs.Lengths.{Stored, place_before};

// The length that is stored as m.
pub fn from_stored(m: usize) -> i32
    requires { m < 65536 }
    ensures { result ≡ pred_ℤ (pos m) }
{
    m as i32 - 1
}

// The number that a length is stored as.
pub fn to_stored(length: i32) -> usize
    requires { Stored length }
    ensures { (m : ℕ) → length ≡ pred_ℤ (pos m) → result ≡ m }
{
    (length + 1) as usize
}

// The length of a palindrome around one of the given length: a letter more on either side.
pub fn plus_two(length: i32) -> i32
    requires { Stored length }
    ensures { (m : ℕ) → length ≡ pred_ℤ (pos m) → result ≡ pred_ℤ (pos (m + 2)) }
{
    length + 2
}

// The place just before the last `length` of k letters; for the imaginary string, place k itself. There
// is none where there are fewer letters.
pub fn before(k: usize, length: i32) -> Option<usize>
    requires { (k < 65536) × Stored length }
    ensures { (m : ℕ) → length ≡ pred_ℤ (pos m) → result ≡ place_before k m }
{
    k.checked_sub(to_stored(length))
}
