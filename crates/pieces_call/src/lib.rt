// The host's call that cuts a record into the fewest repeats. It tests its store and its buffer, asks nothing of the caller,
// and leaves every byte as the outcome of the call says.
#![tactic(auto)]

ghost use Rattle.std.specs.Prelude.{◌≡◌};
ghost use Rattle.palindromes.specs.Refusal.{the_pieces};
ghost use Rattle.store.specs.Layout.{reading_in};
ghost use Rattle.store.specs.Good.{Good};
ghost use Rattle.outcome.specs.Promise.{AskedInto};

use factorization::{factorize, put_ends};
use outcome::answers::refuse;
use outcome::pack;
use refusal::Refusal;
use store::header;

// Writes where each piece ends and answers how many there are, of a plain record whose store was found
// good. It is a call of its own, so that its arrays do not lie on the stack beside those of the test.
#[inline(never)]
fn cut_of_good(store: &[u8], out: &mut [u8]) -> u64
    requires { Good store.now × (reading_in store.now ≡ 0) }
    ensures { AskedInto the_pieces store.now out.old result out.new }
{
    let mut lasts = [0u16; 1024];
    let number = factorize(store, &mut lasts).number;
    if out.len() < 2 * number {
        return refuse(Refusal::ShortBuffer);
    }
    put_ends(store, &lasts, number, out);
    pack(false, 0, number, 0)
}

// Writes where each piece ends, two bytes each, and answers how many there are.
pub fn list_pieces(store: &[u8], out: &mut [u8]) -> u64
    ensures { AskedInto the_pieces store.now out.old result out.new }
{
    if !audit::is_good(store) {
        return refuse(Refusal::Damaged);
    }
    if header::reading(store) != 0 {
        return refuse(Refusal::Inverted);
    }
    cut_of_good(store, out)
}
