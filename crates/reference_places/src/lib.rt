// Where a piece stands in a record.
//
// The functions are slow and plain: each is proved equal to a definition, so that it can be run.
#![tactic(auto)]

ghost use Rattle.std.specs.Prelude.{◌≡◌, drop};
ghost use Rattle.palindromes.specs.Place.{starts_with, stands_once, first_place};
ghost use Rattle.palindromes.specs.Place.{frequency as Place·frequency, stands as Place·stands};

// Whether s begins with p, many letters compared at once: a call of its own, so that what is asked at
// every place stays short.
#[inline(never)]
fn begins_with(p: &[u8], s: &[u8]) -> bool
    ensures { result ≡ starts_with p.now s.now }
{
    s.starts_with(p)
}

// Whether s begins with p at the place `at`, which may lie past the end. At most places a letter or two
// tell.
#[inline(always)]
pub fn starts_with(p: &[u8], s: &[u8], at: usize) -> bool
    ensures { result ≡ starts_with p.now (drop at s.now) }
{
    let rest = &s[at.min(s.len())..];
    if rest.len() < p.len() {
        return false;
    }
    for i in 0..p.len() {
        if p[i] != rest[i] {
            return false;
        }
        if i == 7 {
            return begins_with(p, rest);
        }
    }
    true
}

// The number of places at which p stands in s.
pub fn frequency(p: &[u8], s: &[u8]) -> usize
    ensures { result ≡ Place·frequency p.now s.now }
{
    let mut found = 0;
    for i in 0..s.len() {
        found += usize::from(starts_with(p, s, i));
    }
    found + usize::from(starts_with(p, s, s.len()))
}

// The first place at which p stands in s, 0 where there is none.
pub fn first_place(p: &[u8], s: &[u8]) -> usize
    ensures { result ≡ first_place p.now s.now }
{
    for at in 0..s.len() {
        if starts_with(p, s, at) {
            return at;
        }
    }
    if starts_with(p, s, s.len()) {
        s.len()
    } else {
        0
    }
}

// Whether p stands in s.
#[tactic(auto, unfolding(palindromes::specs::Place::stands))]
pub fn stands(p: &[u8], s: &[u8]) -> bool
    ensures { result ≡ Place·stands p.now s.now }
{
    0 < frequency(p, s)
}

// Whether p stands in s at one place only.
#[tactic(auto, unfolding(palindromes::specs::Place::stands_once))]
pub fn stands_once(p: &[u8], s: &[u8]) -> bool
    ensures { result ≡ stands_once p.now s.now }
{
    frequency(p, s) == 1
}
