// One cell: a number of two bytes, low byte first.
ghost use Rattle.std.specs.Prelude.{◌≡◌, ◌+◌, ◌*◌, ◌<◌, length};
ghost use Rattle.store.specs.Layout.{cell_at, cell, set_cell};

// The number in cell f of row r.
pub fn get(b: &[u8], r: usize, f: usize) -> usize
    requires { cell_at r f + 1 < length b.now }
    ensures { (result ≡ cell b.now r f) × (result < 65536) }
{
    let at = 24 * r + 2 * f;
    usize::from(u16::from_le_bytes([b[at], b[at + 1]]))
}

// Puts the number v into cell f of row r.
pub fn put(b: &mut [u8], r: usize, f: usize, v: usize)
    requires { cell_at r f + 1 < length b.old }
    ensures { b.new ≡ set_cell b.old r f v }
{
    let at = 24 * r + 2 * f;
    let [low, high, ..] = v.to_le_bytes();
    b[at] = low;
    b[at + 1] = high;
}
