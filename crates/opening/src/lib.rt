// Opening: an empty record of a given capacity, in either reading, whatever the bytes held.
#![tactic(auto)]

ghost use Rattle.std.specs.Prelude.{◌≡◌, ◌+◌, ◌*◌, ◌≤◌, length};
ghost use Rattle.palindromes.specs.Reading.{reading_number};
ghost use Rattle.palindromes.specs.Refusal.{store_size};
ghost use Rattle.store.specs.Writes.{writes};
ghost use Rattle.transitions.specs.Opening.{order_writes, head_writes, opened};
ghost use Rattle.opening.specs.Ways.{way_of};

use store::letters::Side;
use store::rows::Row;
use store::{bytes, header, rows};

// How a record is read.
#[derive(Clone, Copy)]
pub enum Reading {
    Plain,
    Inverted,
}

// The number that stands for a reading in a store. No `From` says it: callers and their proofs cite
// this name and its contract.
#[tactic(auto, unfolding(palindromes::specs::Reading::reading_number))]
pub fn reading_number(reading: Reading) -> usize
    ensures { result ≡ reading_number (way_of reading) }
{
    match reading {
        Reading::Plain => 0,
        Reading::Inverted => 1,
    }
}

// Lists the rows from 2 on in rising order, and gives each its rank.
fn number(b: &mut [u8], capacity: usize)
    requires { 24 * (capacity + 2) ≤ length b.old }
    ensures { b.new ≡ writes b.old (order_writes capacity) }
{
    for k in 0..capacity {
        rows::put_order(b, k, k + 2);
        rows::put_rank(b, k + 2, k);
    }
}

// Puts the capacity, the reading, the lengths of both roots, and both ends at the empty string.
#[tactic(auto, unfolding(store::specs::Writes::writes))]
fn head(b: &mut [u8], reading: usize, capacity: usize)
    requires { 48 ≤ length b.old }
    ensures { b.new ≡ writes b.old (head_writes reading capacity) }
{
    header::set_capacity(b, capacity);
    header::set_reading(b, reading);
    rows::put_length(b, Row::IMAGINARY, Row::IMAGINARY_LENGTH);
    rows::put_length(b, Row::EMPTY, Row::EMPTY_LENGTH);
    header::set_end_row(b, Side::Left, Row::EMPTY);
    header::set_end_row(b, Side::Right, Row::EMPTY);
}

// Leaves an empty record that is full at exactly `capacity` letters.
#[tactic(auto, unfolding(palindromes::specs::Refusal::store_size, store::specs::Writes::writes, transitions::specs::Opening::opening_writes, transitions::specs::Opening::opened))]
pub fn open(b: &mut [u8], reading: Reading, capacity: usize)
    requires { (1 ≤ capacity) × (capacity ≤ 1024) × (store_size capacity ≤ length b.old) }
    ensures { b.new ≡ opened (reading_number (way_of reading)) capacity b.old }
{
    bytes::clear(b, 24 * (capacity + 2) + capacity);
    head(b, reading_number(reading), capacity);
    number(b, capacity);
}
