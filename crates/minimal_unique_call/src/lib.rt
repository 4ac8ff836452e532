// The host's call that lists where the minimal unique repeats stand. It tests its store and its buffer, asks nothing of
// the caller, and leaves every byte as the outcome of the call says.
#![tactic(auto)]

ghost use Rattle.palindromes.specs.Refusal.{the_minimal_unique};
ghost use Rattle.store.specs.Good.{Good};
ghost use Rattle.outcome.specs.Promise.{AskedInto};

use minimal_unique::{count_minimal, put_minimal};
use outcome::answers::refuse;
use outcome::pack;
use refusal::Refusal;
use unique_rows::mark_rows;

// Writes where each stands and answers how many there are, of a store that was found good. It is a call
// of its own, so that its arrays do not lie on the stack beside those of the test.
#[inline(never)]
fn list_of_good(store: &[u8], out: &mut [u8]) -> u64
    requires { Good store.now }
    ensures { AskedInto the_minimal_unique store.now out.old result out.new }
{
    let mut firsts = [0u16; 1024];
    let mut marks = [0u8; 1026];
    mark_rows(store, &mut firsts, &mut marks);
    let number = count_minimal(store, &firsts, &marks);
    if out.len() < 4 * number {
        return refuse(Refusal::ShortBuffer);
    }
    put_minimal(store, &firsts, &marks, out);
    pack(false, 0, number, 0)
}

// Writes where each stands, four bytes each, and answers how many there are.
pub fn list_minimal_unique(store: &[u8], out: &mut [u8]) -> u64
    ensures { AskedInto the_minimal_unique store.now out.old result out.new }
{
    if !audit::is_good(store) {
        return refuse(Refusal::Damaged);
    }
    list_of_good(store, out)
}
