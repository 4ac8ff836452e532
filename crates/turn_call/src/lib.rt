// The host's call that changes the reading of a record. It tests its store, asks nothing of the
// caller, and leaves every byte as the outcome of the call says.
#![tactic(auto)]

ghost use Rattle.palindromes.specs.Refusal.{turn};
ghost use Rattle.opening.specs.Ways.{way_of};
ghost use Rattle.outcome.specs.Promise.{nothing, Promise};

use opening::Reading;
use outcome::answers::refuse;
use outcome::pack;
use refusal::Refusal;

// Turns the record to a reading.
pub fn turn(store: &mut [u8], reading: Reading) -> u64
    ensures { Promise (turn (way_of reading)) store.old nothing result store.new nothing }
{
    if !audit::is_good(store) {
        return refuse(Refusal::Damaged);
    }
    turning::turn(store, reading);
    pack(false, 0, 0, 0)
}
