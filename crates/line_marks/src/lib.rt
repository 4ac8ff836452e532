// A line of a sheet, marked: with a bit for each palindrome that a right line above it names, at its rank.
#![tactic(auto)]

ghost use Rattle.std.specs.Prelude.{◌+◌, ◌<◌};
ghost use Rattle.line_marks.specs.LineMarks.{MarksLine, CountsLine};

use bed_reader::Entry;
use bitmap::mark;
use interval_rows::IntervalRows;
use store::header;
use store::rows::rank_of;

// What a line is worth.
#[derive(Clone, Copy)]
pub enum LineMark {
    Right,
    Repeated,
    Wrong,
}

// How many lines are right, repeated and wrong so far.
#[derive(Clone, Copy)]
pub struct SoFar {
    pub right: u64,
    pub repeated: u64,
    pub wrong: u64,
}

// Marks a line, and its palindrome where it is right.
fn mark_line(rows: IntervalRows<'_>, marks: &mut [u8], x: Entry) -> LineMark
    ensures { MarksLine rows.entry.store.now x marks.old result marks.new }
{
    if !x.agrees || x.end <= x.start || header::size(rows.store) < x.end {
        return LineMark::Wrong;
    }
    let Some(row) = rows.row_of_interval(x.start, x.end) else {
        return LineMark::Wrong;
    };
    if mark(marks, 0, rank_of(rows.store, row)) {
        LineMark::Right
    } else {
        LineMark::Repeated
    }
}

// Counts a line on top of those above it.
pub fn count_line(rows: IntervalRows<'_>, marks: &mut [u8], x: Entry, above: SoFar) -> SoFar
    requires wrong_bound { above.right + above.repeated + above.wrong < 18446744073709551615 }
    ensures { CountsLine rows.entry.store.now x above marks.old result marks.new }
{
    match mark_line(rows, marks, x) {
        LineMark::Right => SoFar {
            right: above.right + 1,
            ..above
        },
        LineMark::Repeated => SoFar {
            repeated: above.repeated + 1,
            ..above
        },
        LineMark::Wrong => SoFar {
            wrong: above.wrong + 1,
            ..above
        },
    }
}
