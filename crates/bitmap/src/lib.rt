// A bitmap: a bit for each number of a window, eight to a byte. The window begins with `from` and
// has as many numbers as the buffer has bits.
#![tactic(auto)]

ghost use Rattle.std.specs.Prelude.{◌≡◌, ◌&&◌, not, cond, ◌-◌};
ghost use Rattle.bitmap.specs.Bitmap.{bit_at, with_bit, in_window};

// Marks a number, and answers whether the window has it and it had no mark. For a number outside
// the window every byte stays.
pub fn mark(bits: &mut [u8], from: usize, i: usize) -> bool
    ensures first { result ≡ (in_window from i bits.old && not (bit_at bits.old (i - from))) }
    ensures marked { bits.new ≡ cond result (with_bit bits.old (i - from)) bits.old }
{
    if i < from {
        return false;
    }
    let byte = (i - from) / 8;
    let bit = (i - from) % 8;
    if byte >= bits.len() || (bits[byte] >> bit) % 2 != 0 {
        return false;
    }
    bits[byte] |= 1 << bit;
    true
}
