// Why a call was not carried out: a case for each number of the table that a host reads (docs/HOST.md).
#![tactic(auto)]

ghost use Rattle.std.specs.Prelude.{◌≡◌, ◌<◌};
ghost use Rattle.refusal.specs.Number.{number_of};

// The cases stand in the order of their numbers, from 1 on.
#[derive(Clone, Copy, Debug, PartialEq, Eq)]
pub enum Refusal {
    // The capacity is none from 1 to 1,024.
    Capacity,
    // The store is too short for the capacity.
    ShortStore,
    // The store is no good one.
    Damaged,
    // A byte is no letter.
    NoLetter,
    // There are more letters than there is room for.
    TooManyLetters,
    // The record has no letter.
    Empty,
    // No row, or no letter, stands at the place that is asked for.
    NoSuchPlace,
    // The piece has no letter.
    EmptyPiece,
    // A lent buffer is too short.
    ShortBuffer,
    // The identifier, or the first line that has it, is none.
    Identifier,
    // A second header line stands in a text.
    SecondHeader,
    // The text is too long.
    LongText,
    // The bytes are no sheet of lines.
    NoSheet,
    // The record is inverted.
    Inverted,
}

impl Refusal {
    // The number that a host reads.
    pub fn number(self) -> u64
        ensures { (result ≡ number_of self) × (result < 15) }
    {
        match self {
            Refusal::Capacity => 1,
            Refusal::ShortStore => 2,
            Refusal::Damaged => 3,
            Refusal::NoLetter => 4,
            Refusal::TooManyLetters => 5,
            Refusal::Empty => 6,
            Refusal::NoSuchPlace => 7,
            Refusal::EmptyPiece => 8,
            Refusal::ShortBuffer => 9,
            Refusal::Identifier => 10,
            Refusal::SecondHeader => 11,
            Refusal::LongText => 12,
            Refusal::NoSheet => 13,
            Refusal::Inverted => 14,
        }
    }
}
