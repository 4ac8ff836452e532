// The function of crate bench_series for the benchmark, which is written in C.
#![tactic(auto)]

ghost use Rattle.bench_series.specs.Visited.{Visited};

// The rows visited, 0 where the store is damaged or the record inverted.
#[unsafe(no_mangle)]
pub extern "C" fn bench_series(store: &[u8]) -> u64
    ensures { Visited store.now result }
{
    bench_series::bench_series(store)
}
