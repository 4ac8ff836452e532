// The row of a stretch of the letters: from the row of the longest palindrome that ends where the
// stretch ends, down the links to one that is as long. Besides its link each row has a jump to a
// row further down, so that the way has a number of steps in the order of the logarithm of the
// chain's length (Myers, An applicative random-access stack, 1983). Which jumps there are matters
// to the time alone.
#![tactic(auto)]

ghost use Rattle.std.specs.Prelude.{◌≡◌, ◌<◌, ◌≤◌, true, ◌⊎◌, length, replicate};
ghost use Rattle.store.specs.Layout.{size_in, used_in};
ghost use Rattle.store.specs.Good.{Good};
ghost use Rattle.end_rows.specs.EndRows.{EndRows};
ghost use Rattle.interval_rows.specs.IntervalRow.{word_in, word_between, RowOf, Jumps, Leads};
ghost use Rattle.interval_rows.specs.Propositions.{Good-prop, Jumps-prop};

use spelling::spelling_length;
use store::rows::Row;
use store::{header, rows};

// The rows of a record's stretches: at each right end that of the longest palindrome there, and
// from each row a jump down the links.
#[derive(Clone, Copy)]
pub struct IntervalRows<'a> {
    pub store: &'a [u8],
    pub ends: &'a [u16],
    pub jumps: &'a [u16],
    pub ghost good: { Good store.now } by { Good-prop store.now },
    pub ghost end_rows: { EndRows store.now ends.now },
    pub ghost jumps_down: { Jumps store.now jumps.now } by { Jumps-prop store.now jumps.now },
}

// Where a row's jump goes, by the depths of its link, of that one's jump and of the jump's jump:
// past both if they are equally far, and else to the link.
fn landing(depths: &[u16], near: usize, far: usize, further: usize) -> usize
    requires { (near < length depths.now) × (far < length depths.now) × (further < length depths.now) }
    ensures { (result ≡ near) ⊎ (result ≡ further) }
{
    let first = depths[near].wrapping_sub(depths[far]);
    let second = depths[far].wrapping_sub(depths[further]);
    if first == second { further } else { near }
}

// Sets the jump of a row whose link has one.
fn set_jump(b: &[u8], jumps: &mut [u16], depths: &mut [u16], row: usize)
    requires good { Good b.now }
    requires row_value { used_in b.now row ≡ true }
    requires jumps { Jumps b.now jumps.old × (length depths.old ≡ 1026) }
    ensures { Jumps b.now jumps.new }
{
    if row <= Row::EMPTY {
        return;
    }
    let near = rows::link_of(b, row);
    let far = usize::from(jumps[near]);
    let further = usize::from(jumps[far]);
    depths[row] = depths[near].wrapping_add(1);
    jumps[row] = landing(depths, near, far, further) as u16;
}

// Sets the jumps of all rows, in the order in which the letters bring them, in a table that
// begins empty.
pub fn fill_jumps(b: &[u8], ends: &[u16], jumps: &mut [u16])
    requires good { Good b.now }
    requires end_rows { EndRows b.now ends.now }
    requires jumps_value { jumps.old ≡ replicate 1026 0 }
    ensures { Jumps b.now jumps.new }
{
    let mut depths = [0u16; 1026];
    for end in &ends[..header::size(b)] {
        set_jump(b, jumps, &mut depths, usize::from(*end));
    }
}

impl IntervalRows<'_> {
    // From a row with more than n letters to the one that its jump leads to, where that has no
    // fewer, and else to its link.
    fn closer(self, n: usize, row: usize) -> usize
        requires row_used { used_in self.store.now row ≡ true }
        requires row_longer { n < length (word_in self.store.now row) }
        ensures { Leads self.entry.store.now n row result }
    {
        let far = usize::from(self.jumps[row]);
        if n <= spelling_length(self.store, far) {
            far
        } else {
            rows::link_of(self.store, row)
        }
    }

    // The row of a stretch from the row at its end on.
    fn row_by_jumps(self, start: usize, end: usize) -> Option<usize>
        requires start_lt_end { (start < end) × (end ≤ size_in self.store.now) }
        ensures { RowOf self.entry.store.now (word_between self.entry.store.now start end) result }
    {
        let n = end - start;
        let mut row = usize::from(self.ends[end - 1]);
        while n < spelling_length(self.store, row) {
            row = self.closer(n, row);
        }
        if spelling_length(self.store, row) == n {
            Some(row)
        } else {
            None
        }
    }

    // The row of the stretch from `start` up to `end`, where it is a palindrome. In the palindrome
    // at its end a palindrome stands at the other end too, where often none is longer.
    pub fn row_of_interval(self, start: usize, end: usize) -> Option<usize>
        requires start_lt_end { (start < end) × (end ≤ size_in self.store.now) }
        ensures { RowOf self.entry.store.now (word_between self.entry.store.now start end) result }
    {
        let n = end - start;
        let m = spelling_length(self.store, usize::from(self.ends[end - 1]));
        if m < n {
            None
        } else {
            let from = end - m;
            self.row_by_jumps(from, from + n)
        }
    }
}
