// A run of bytes.
ghost use Rattle.std.specs.Prelude.{◌≡◌, ◌≤◌, length, replicate};
ghost use Rattle.std.proofs.lemmas.List.Edits.{sets};

// Clears the first n bytes.
pub fn clear(bytes: &mut [u8], n: usize)
    requires { n ≤ length bytes.old }
    ensures { bytes.new ≡ sets bytes.old 0 (replicate n 0) }
{
    bytes[..n].fill(0);
}
