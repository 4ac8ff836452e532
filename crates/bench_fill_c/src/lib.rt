// The function of crate bench_fill for the benchmark, which is written in C.
#![tactic(auto)]

ghost use Rattle.bench_fill.specs.Fills.{Fills};

// Fills a record, and answers how many letters it was given; 0 where it has no room or a byte is no
// letter, and the store then stays.
#[unsafe(no_mangle)]
pub extern "C" fn bench_fill(store: &mut [u8], letters: &[u8]) -> u64
    ensures { Fills store.old letters.now result store.new }
{
    bench_fill::bench_fill(store, letters)
}
