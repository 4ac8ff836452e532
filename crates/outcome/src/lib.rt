// What every call answers and leaves in the lent bytes, in specs/, and the packing of an answer
// into one number.
#![tactic(auto)]

pub mod answers;

ghost use Rattle.std.specs.Prelude.{◌≡◌, ◌<◌};
ghost use Rattle.outcome.specs.Reply.{packed, accepted, answered, refused_with};
ghost use Rattle.outcome.specs.Wide.{wide_answer};

// The answer of a call that was carried out.
#[tactic(auto, unfolding(crate::specs::Reply::packed, crate::specs::Reply::accepted, crate::specs::Reply::bit))]
pub fn pack(flag: bool, row: usize, first: usize, second: usize) -> u64
    requires { (row < 65536) × (first < 65536) × (second < 65536) }
    ensures { result ≡ packed (accepted flag row first second) }
{
    256 * u64::from(flag)
        + 65536 * row as u64
        + 4294967296 * first as u64
        + 281474976710656 * second as u64
}

// The answer of a call that was carried out and tells two sums, each of three bytes.
#[tactic(auto, unfolding(crate::specs::Reply::packed, crate::specs::Reply::accepted, crate::specs::Reply::bit, crate::specs::Wide::wide_answer))]
pub fn pack_wide(rows: usize, ends: usize) -> u64
    requires { (rows < 16777216) × (ends < 16777216) }
    ensures { result ≡ packed (answered (wide_answer rows ends)) }
{
    65536 * rows as u64 + 1099511627776 * ends as u64
}

// The answer of a call that is refused with a number.
#[tactic(auto, unfolding(crate::specs::Reply::packed, crate::specs::Reply::refused_with, crate::specs::Reply::bit))]
pub fn refuse(number: u64) -> u64
    ensures { result ≡ packed (refused_with number) }
{
    number
}
