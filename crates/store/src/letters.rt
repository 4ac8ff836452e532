// The end that a call works at.
ghost use Rattle.std.specs.Prelude.{◌≡◌};
ghost use Rattle.palindromes.specs.End.{other};
ghost use Rattle.store.specs.Side.{end_of, pick};

// The end that a call works at.
#[derive(Clone, Copy)]
pub enum Side {
    Left,
    Right,
}

impl Side {
    // The one of two values that is this side's.
    pub fn pick<T: Copy>(self, left: T, right: T) -> T
        ensures { result ≡ pick (end_of self) left right }
    {
        match self {
            Side::Left => left,
            Side::Right => right,
        }
    }
}

// The side across.
pub fn other(side: Side) -> Side
    ensures { end_of result ≡ other (end_of side) }
{
    match side {
        Side::Left => Side::Right,
        Side::Right => Side::Left,
    }
}
