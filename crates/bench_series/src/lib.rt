// How many rows the factorization of a record visits, exported for the benchmark alone: the call of the host answers the factors.
#![tactic(auto)]

ghost use Rattle.bench_series.specs.Visited.{Visited};

use factorization::factorize;
use store::header;

// The rows visited, 0 where the store is damaged or the record inverted. C reads the answer, so it is a
// number.
pub fn bench_series(store: &[u8]) -> u64
    ensures { Visited store.now result }
{
    if !audit::is_good(store) {
        return 0;
    }
    if header::reading(store) != 0 {
        return 0;
    }
    let mut lasts = [0u16; 1024];
    factorize(store, &mut lasts).steps as u64
}
