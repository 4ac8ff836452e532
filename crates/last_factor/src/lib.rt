// Where the last of the fewest palindromes begins that the letters up to a right end can be cut
// into. The palindromes that end there are met by series: along the links from a row the lengths
// fall by the same difference, and the places at which those of the series begin are, but for the
// last, those of the series of the row's link at an earlier end. So the choice among them is kept
// with each row, with the place at which the series begins, and taken up again where that place
// and the difference are the same.
#![tactic(auto)]

ghost use Rattle.std.specs.Prelude.{◌≡◌, ◌+◌, ◌-◌, ◌≤◌, ◌<◌, length, get_or};
ghost use Rattle.palindromes.specs.Factorization.{better};
ghost use Rattle.store.specs.Good.{Good};
ghost use Rattle.store.specs.Layout.{size_in};
ghost use Rattle.walk.specs.Replay.{Holds};
ghost use Rattle.last_factor.specs.Kept.{memo, begin_of, next_of, place_of, reach_in, start_in, KeptIn, Known, Memos, FreshIn, next_in, series_at};
ghost use Rattle.last_factor.specs.Kept.{EndsAt};

use store::rows::Row;
use store::{cells, rows};

// What is kept with a row of its series: the place at which it begins plus one, the row after it,
// and the chosen place. They stand in one number, since three lists would take half as much stack
// again.
fn memo_of(begin: usize, next: usize, place: usize) -> u32
    requires { (begin < 2048) × (next < 2048) × (place < 1024) }
    ensures { result ≡ memo begin next place }
{
    (begin + 2048 * next + 4194304 * place) as u32
}

// Each of the three, 0 where nothing is kept.
fn begin_of(memos: &[u32], row: usize) -> usize
    requires { row < length memos.now }
    ensures { result ≡ begin_of (get_or memos.now row 0) }
{
    (memos[row] % 2048) as usize
}

fn next_of(memos: &[u32], row: usize) -> usize
    requires { row < length memos.now }
    ensures { result ≡ next_of (get_or memos.now row 0) }
{
    (memos[row] / 2048 % 2048) as usize
}

fn place_of(memos: &[u32], row: usize) -> usize
    requires { row < length memos.now }
    ensures { result ≡ place_of (get_or memos.now row 0) }
{
    (memos[row] / 4194304) as usize
}

// Of two places the one with fewer factors before it, the first where they are equal.
fn better_of(factors: &[u16], a: usize, q: usize) -> usize
    requires { (a < length factors.now) × (q < length factors.now) }
    ensures { result ≡ better (λ p. get_or factors.now p 0) a q }
{
    if factors[q] < factors[a] { q } else { a }
}

// The chosen place of a series, and the row after it.
#[derive(Clone, Copy)]
struct Series {
    place: usize,
    next: usize,
}

// The series of a row whose palindrome ends at i: that of its link, as far as it is kept, and one
// place more, or else the row alone.
fn jump(b: &[u8], i: usize, row: usize, factors: &[u16], memos: &[u32]) -> Series
    requires good { Good b.now }
    requires ends_at { EndsAt b.now i row }
    requires known { Known b.now i factors.now }
    requires memos { Memos b.now memos.now }
    ensures choice { KeptIn b.now (i + 1 - reach_in b.now row) row result.place result.next }
    ensures next { result.next ≡ next_in b.now memos.now i row }
{
    let reach = cells::get(b, row, 0);
    let link = rows::link_of(b, row);
    let start = i + 1 - reach;
    if begin_of(memos, link) == start + 1 {
        let shorter = cells::get(b, link, 0);
        let difference = reach - shorter;
        let below = rows::link_of(b, link);
        if shorter == cells::get(b, below, 0) + difference {
            let next = next_of(memos, link);
            let last = i + 1 - (cells::get(b, next, 0) + difference);
            return Series {
                place: better_of(factors, place_of(memos, link), last),
                next,
            };
        }
    }
    Series {
        place: start,
        next: link,
    }
}

// Where a last factor begins, and how many series were passed to find it.
#[derive(Clone, Copy)]
pub struct LastFactor {
    pub start: usize,
    pub turns: usize,
}

// Where the last factor of the first i letters begins, from the row of the longest palindrome
// that ends them. A choice is kept with the first row of each series, and none is missing where
// it is asked for, so there are as many turns as series.
pub fn last_factor(
    b: &[u8],
    i: usize,
    longest: usize,
    factors: &[u16],
    memos: &mut [u32],
) -> LastFactor
    requires good { Good b.now }
    requires ends_at { EndsAt b.now i longest × Holds b.now i longest × (i ≤ size_in b.now) }
    requires known { Known b.now i factors.now }
    requires memos_2 { Memos b.now memos.old × FreshIn b.now memos.old i }
    ensures start { (result.start ≡ start_in b.now i) × (result.start < i) × (result.turns ≡ series_at b.now i) }
    ensures memos { Memos b.now memos.new }
    ensures fresh { FreshIn b.now memos.new (i + 1) }
{
    let mut row = longest;
    let mut start = i + 1 - cells::get(b, longest, 0);
    let mut turns = 0;
    while Row::EMPTY < row {
        let Series {
            place: chosen,
            next,
        } = jump(b, i, row, factors, memos);
        memos[row] = memo_of(i + 2 - cells::get(b, row, 0), next, chosen);
        start = better_of(factors, start, chosen);
        row = next;
        turns += 1;
    }
    LastFactor { start, turns }
}
