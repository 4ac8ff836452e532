// The host's call that opens a record, in either reading. It tests its store's length and its
// argument, asks nothing of the caller, and leaves every byte as the outcome of the call says.
#![tactic(auto)]

ghost use Rattle.std.specs.Prelude.{IfOk, IfErr};
ghost use Rattle.opening.specs.Ways.{way_of};
ghost use Rattle.outcome.specs.Promise.{OpeningPromise};
ghost use Rattle.opening_call.specs.Room.{Room, Refuses};

use opening::Reading;
use outcome::answers::refuse;
use outcome::pack;
use refusal::Refusal;

// The capacity as a size, where a store has room for a record of it; and else why it has not.
fn judge_open(store: &[u8], capacity: u64) -> Result<usize, Refusal>
    ensures room { IfOk result (Room capacity store.now) }
    ensures none { IfErr result (Refuses capacity store.now) }
{
    if capacity < 1 || 1024 < capacity {
        return Err(Refusal::Capacity);
    }
    let k = capacity as usize;
    if store.len() < 48 * k + 256 {
        return Err(Refusal::ShortStore);
    }
    Ok(k)
}

// Opens an empty record of the given capacity, in a reading.
pub fn open(store: &mut [u8], reading: Reading, capacity: u64) -> u64
    ensures { OpeningPromise (way_of reading) capacity store.old result store.new }
{
    match judge_open(store, capacity) {
        Ok(k) => {
            opening::open(store, reading, k);
            pack(false, 0, 0, 0)
        }
        Err(refusal) => refuse(refusal),
    }
}
