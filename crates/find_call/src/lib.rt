// The host's call that finds a piece. It tests its store and its piece, asks nothing of the caller, and
// changes no byte.
#![tactic(auto)]

ghost use Rattle.palindromes.specs.Refusal.{ask, find};
ghost use Rattle.outcome.specs.Promise.{nothing, Asked};
ghost use Rattle.outcome.specs.Verdict.{Verdict, judged_number};

use alphabet::all_letters;
use outcome::answers::{answer_found, refuse};
use refusal::Refusal;

// Why a piece cannot be searched, if it cannot.
fn judge_find(store: &[u8], piece: &[u8]) -> Result<(), Refusal>
    ensures { Verdict (ask (find piece.now)) store.now nothing (judged_number result) }
{
    if !audit::is_good(store) {
        return Err(Refusal::Damaged);
    }
    if piece.len() == 0 {
        return Err(Refusal::EmptyPiece);
    }
    if !all_letters(piece) {
        return Err(Refusal::NoLetter);
    }
    Ok(())
}

// Whether a piece is a repeat of the record, and its row; and where the piece and its reversal
// disagree first.
pub fn find_piece(store: &[u8], piece: &[u8]) -> u64
    ensures { Asked (find piece.now) store.now nothing result nothing }
{
    match judge_find(store, piece) {
        Ok(()) => answer_found(search::find(store, piece)),
        Err(refusal) => refuse(refusal),
    }
}
