// Additions with no test of the store between them, exported for the benchmark alone: a record of
// capacity 1,024 is opened and letters are added at its right end, as mirrorlist does.
#![tactic(auto)]

ghost use Rattle.bench_fill.specs.Fills.{Fills};

use alphabet::all_letters;
use filling::fill;
use opening::Reading;
use store::letters::Side;

// Fills a record, and answers how many letters it was given; 0 where it has no room or a byte is no
// letter, and the store then stays. C reads the answer, so it is a number.
pub fn bench_fill(store: &mut [u8], letters: &[u8]) -> u64
    ensures { Fills store.old letters.now result store.new }
{
    if store.len() < 49408 {
        return 0;
    }
    if 1024 < letters.len() {
        return 0;
    }
    if !all_letters(letters) {
        return 0;
    }
    opening::open(store, Reading::Plain, 1024);
    fill(store, Side::Right, letters);
    letters.len() as u64
}
