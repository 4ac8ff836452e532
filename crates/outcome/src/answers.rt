// What an addition, a removal and a search answer, a case for each that document 01 names, what a
// refused call answers, and their packing.
ghost use Rattle.std.specs.Prelude.{◌≡◌, ◌<◌};
ghost use Rattle.refusal.specs.Number.{number_of};
ghost use Rattle.outcome.specs.Reply.{packed, refused_with};
ghost use Rattle.outcome.specs.Answers.{added_reply, removed_reply, found_reply};

use super::pack;
use refusal::Refusal;

// Each of the three stays an enum of its own: a definition gives the number and the values of each of
// its cases, and a case that has no row has a number or a letter all the same.

// What an addition answers: the row of the palindrome that came in, or that none did, and how many
// candidates were passed in the search for it.
#[derive(Clone, Copy)]
pub enum Added {
    New(usize, usize),
    Known(usize),
}

// What a removal answers: the letter, and the row of the palindrome that went, if one did.
#[derive(Clone, Copy)]
pub enum Removed {
    Gone(u8, usize),
    Kept(u8),
}

// What a search answers: the row of a palindrome of the record, or that the piece is none, and where
// the piece and its reversal disagree first.
#[derive(Clone, Copy)]
pub enum Found {
    At(usize, usize),
    Absent(usize),
}

// The answer of an addition.
#[tactic(auto, unfolding(crate::specs::Answers::added_reply, crate::specs::Reply::accepted))]
pub fn answer_added(added: Added) -> u64
    requires { ((added_reply added).row < 65536) × ((added_reply added).first < 65536) }
    ensures { result ≡ packed (added_reply added) }
{
    match added {
        Added::New(row, passed) => pack(true, row, passed, 0),
        Added::Known(passed) => pack(false, 0, passed, 0),
    }
}

// The answer of a removal.
pub fn answer_removed(removed: Removed) -> u64
    requires { (removed_reply removed).row < 65536 }
    ensures { result ≡ packed (removed_reply removed) }
{
    match removed {
        Removed::Gone(letter, row) => pack(true, row, usize::from(letter), 0),
        Removed::Kept(letter) => pack(false, 0, usize::from(letter), 0),
    }
}

// The answer of a search.
#[tactic(auto, unfolding(crate::specs::Answers::found_answer, crate::specs::Reply::accepted))]
pub fn answer_found(found: Found) -> u64
    requires { ((found_reply found).row < 65536) × ((found_reply found).first < 65536) }
    ensures { result ≡ packed (found_reply found) }
{
    match found {
        Found::At(row, pair) => pack(true, row, pair, 0),
        Found::Absent(pair) => pack(false, 0, pair, 0),
    }
}

// The answer of a refused call.
pub fn refuse(refusal: Refusal) -> u64
    ensures { result ≡ packed (refused_with (number_of refusal)) }
{
    super::refuse(refusal.number())
}
