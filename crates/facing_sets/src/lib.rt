// The longest stretches whose facing sets meet, around every centre, from the middle outwards: of
// the sets of all codes, and of those of the certain ones.
#![tactic(auto)]

ghost use Rattle.std.specs.Prelude.{◌≡◌, ◌+◌, ◌≤◌, length};
ghost use Rattle.facing_sets.specs.Search.{Within, Centre, Radius, MaximalRadius, Best, Better, Longest};

// The length of the longest stretch for some choice of bases, and for every choice.
#[derive(Clone, Copy)]
pub struct Lengths {
    pub some: usize,
    pub every: usize,
}

// The maximal radius at a centre: how many places more at either side leave facing sets that
// meet, of as many as there is room for. The first `known` do.
fn maximal_radius(sets: &[u8], left: usize, right: usize, room: usize, known: usize) -> usize
    requires { Centre sets.now left right room × Radius sets.now left right known }
    ensures { MaximalRadius sets.now left right known result }
{
    for k in known..room {
        if sets[left - 1 - k] & sets[right + k] == 0 {
            return k;
        }
    }
    room
}

// The best lengths after one more centre. What serves every choice serves some, so the search for
// some choice begins where that for every choice ended; it is left out where there is no room to
// beat the best.
fn at_centre(
    sets: &[u8],
    certain: &[u8],
    left: usize,
    right: usize,
    room: usize,
    best: Lengths,
) -> Lengths
    requires { Within certain.now sets.now × Centre sets.now left right room × Best sets.now certain.now best }
    ensures { Better sets.now certain.now (left + right) best result }
{
    let width = right - left;
    let k = maximal_radius(certain, left, right, room, 0);
    let every = best.every.max(width + 2 * k);
    if width + 2 * room <= best.some {
        Lengths { every, ..best }
    } else {
        let m = maximal_radius(sets, left, right, room, k);
        let some = best.some.max(width + 2 * m);
        Lengths { some, every }
    }
}

// Both lengths. The two centres that are t half places from the middle have room for n - t places
// in all, so the search ends once that cannot beat the best for every choice, which is not above
// that for some.
pub fn longest(sets: &[u8], certain: &[u8]) -> Lengths
    requires { Within certain.now sets.now × (length sets.now ≤ 1024) }
    ensures { Longest sets.now certain.now result }
{
    let n = sets.len();
    let mut best = Lengths { some: 0, every: 0 };
    let mut t = 0;

    // How many turns there are depends on what they find, so that no range counts them.
    while best.every + t < n {
        let room = (n - t) / 2;
        best = at_centre(sets, certain, room, n - t - room, room, best);
        best = at_centre(sets, certain, room + t, n - room, room, best);
        t += 1;
    }
    best
}
