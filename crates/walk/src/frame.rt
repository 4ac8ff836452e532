// The frame of a store: where its letters lie and how they are read. It is taken from the header
// once and handed to whatever reads letters.
ghost use Rattle.std.specs.Prelude.{◌≡◌, ◌+◌, ◌<◌, ◌≤◌, length, get_or};
ghost use Rattle.store.specs.Good.{Sized};
ghost use Rattle.walk.specs.Frame.{Frames, standing_in};

use store::header;
use store::letters::Side;

// The partner rule's reading, the place of the first letter, how many letters stand, and how many
// have room.
#[derive(Clone, Copy)]
pub struct Frame {
    pub reading: usize,
    pub base: usize,
    pub n: usize,
    pub capacity: usize,
}

// Reads the header.
#[tactic(auto, unfolding(palindromes::specs::Refusal::store_size))]
pub fn frame_of(b: &[u8]) -> Frame
    requires { Sized b.now }
    ensures { Frames b.now result }
{
    let capacity = header::capacity(b);
    Frame {
        reading: header::reading(b),
        base: 24 * (capacity + 2),
        n: header::size(b),
        capacity,
    }
}

// Letter i of the frame as it stands, in the order in which letters are read towards a side.
pub fn standing(b: &[u8], f: Frame, side: Side, i: usize) -> u8
    requires { (f.base + f.n ≤ length b.now) × (i < f.n) }
    ensures { result ≡ get_or (standing_in b.now f side) i 0 }
{
    let base = f.base;
    let n = f.n;
    match side {
        Side::Right => b[base + i],
        Side::Left => b[base + (n - 1 - i)],
    }
}
