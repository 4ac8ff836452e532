// The calls of a host in C, by the names of include/mirror.h. Each only hands on to a function of
// the crate of its call, where need be with its end or its reading, and makes the same promise, which
// holds for all bytes and all numbers.
#![tactic(auto)]

ghost use Rattle.palindromes.specs.Reading.{as_plain, as_inverted};
ghost use Rattle.palindromes.specs.End.{at_left, at_right};
ghost use Rattle.palindromes.specs.Refusal.{add, remove, turn, the_length, the_count, the_longest, the_longest_length, the_longest_at, the_letter, the_row};
ghost use Rattle.palindromes.specs.Refusal.{the_frequency, the_occurrences, spell, find, list, page, the_minimal_unique, the_pieces, mark};
ghost use Rattle.fasta_call.specs.Answer.{FastaPromise};
ghost use Rattle.uncertain_call.specs.Answer.{UncertainPromise};
ghost use Rattle.outcome.specs.Promise.{lending, nothing, Promise, OpeningPromise, FreeRow, Asked, AskedInto};

use opening::Reading;
use store::letters::Side;

// Opens an empty plain record of the given capacity.
pub fn mirror_open(store: &mut [u8], capacity: u64) -> u64
    ensures { OpeningPromise as_plain capacity store.old result store.new }
{
    opening_call::open(store, Reading::Plain, capacity)
}

// Opens an empty inverted record of the given capacity.
pub fn mirror_open_inverted(store: &mut [u8], capacity: u64) -> u64
    ensures { OpeningPromise as_inverted capacity store.old result store.new }
{
    opening_call::open(store, Reading::Inverted, capacity)
}

// Adds a letter at the left end.
pub fn mirror_add_left(store: &mut [u8], letter: u64) -> u64
    ensures promise { Promise (add at_left letter) store.old nothing result store.new nothing }
    ensures free { FreeRow at_left letter store.old }
{
    addition_call::add(store, Side::Left, letter)
}

// Adds a letter at the right end.
pub fn mirror_add_right(store: &mut [u8], letter: u64) -> u64
    ensures promise { Promise (add at_right letter) store.old nothing result store.new nothing }
    ensures free { FreeRow at_right letter store.old }
{
    addition_call::add(store, Side::Right, letter)
}

// Removes the letter at the left end.
pub fn mirror_remove_left(store: &mut [u8]) -> u64
    ensures { Promise (remove at_left) store.old nothing result store.new nothing }
{
    removal_call::remove(store, Side::Left)
}

// Removes the letter at the right end.
pub fn mirror_remove_right(store: &mut [u8]) -> u64
    ensures { Promise (remove at_right) store.old nothing result store.new nothing }
{
    removal_call::remove(store, Side::Right)
}

// Turns the record to the plain reading.
pub fn mirror_turn_plain(store: &mut [u8]) -> u64
    ensures { Promise (turn as_plain) store.old nothing result store.new nothing }
{
    turn_call::turn(store, Reading::Plain)
}

// Turns the record to the inverted reading.
pub fn mirror_turn_inverted(store: &mut [u8]) -> u64
    ensures { Promise (turn as_inverted) store.old nothing result store.new nothing }
{
    turn_call::turn(store, Reading::Inverted)
}

// How many letters stand.
pub fn mirror_length(store: &[u8]) -> u64
    ensures { Asked the_length store.now nothing result nothing }
{
    record_calls::length(store)
}

// How many distinct repeats stand.
pub fn mirror_count(store: &[u8]) -> u64
    ensures { Asked the_count store.now nothing result nothing }
{
    record_calls::count(store)
}

// The longest repeat's length, 0 where there is none.
pub fn mirror_longest_length(store: &[u8]) -> u64
    ensures { Asked the_longest_length store.now nothing result nothing }
{
    record_calls::longest_length(store)
}

// The longest repeat's length and leftmost place.
pub fn mirror_longest(store: &[u8]) -> u64
    ensures { Asked the_longest store.now nothing result nothing }
{
    longest_calls::longest_repeat(store)
}

// The longest repeat at the left end: its row, and whether it stands once only.
pub fn mirror_longest_left(store: &[u8]) -> u64
    ensures { Asked (the_longest_at at_left) store.now nothing result nothing }
{
    longest_calls::longest_at(store, Side::Left)
}

// The longest repeat at the right end: its row, and whether it stands once only.
pub fn mirror_longest_right(store: &[u8]) -> u64
    ensures { Asked (the_longest_at at_right) store.now nothing result nothing }
{
    longest_calls::longest_at(store, Side::Right)
}

// The letter at a place.
pub fn mirror_letter(store: &[u8], place: u64) -> u64
    ensures { Asked (the_letter place) store.now nothing result nothing }
{
    record_calls::letter(store, place)
}

// A row's length, link and inner row.
pub fn mirror_row(store: &[u8], row: u64) -> u64
    ensures { Asked (the_row row) store.now nothing result nothing }
{
    row_call::row(store, row)
}

// How often a row's repeat stands.
pub fn mirror_frequency(store: &[u8], row: u64) -> u64
    ensures { Asked (the_frequency row) store.now nothing result nothing }
{
    frequency_calls::frequency(store, row)
}

// How many repeats stand, counted by place: over the rows and over the right ends.
pub fn mirror_occurrences(store: &[u8]) -> u64
    ensures { Asked the_occurrences store.now nothing result nothing }
{
    frequency_calls::occurrences(store)
}

// Writes a row's repeat.
pub fn mirror_spell(store: &[u8], row: u64, out: &mut [u8]) -> u64
    ensures { AskedInto (spell row) store.now out.old result out.new }
{
    spell_call::spell_row(store, row, out)
}

// Whether a piece is a repeat of the record, and its row.
pub fn mirror_find(store: &[u8], piece: &[u8]) -> u64
    ensures { Asked (find piece.now) store.now nothing result nothing }
{
    find_call::find_piece(store, piece)
}

// Writes the list of the repeats.
pub fn mirror_list(store: &[u8], identifier: &[u8], scratch: &mut [u8], out: &mut [u8]) -> u64
    ensures { Asked (list identifier.now) store.now (lending scratch.old out.old) result (lending scratch.new out.new) }
{
    list_call::list_repeats(store, identifier, scratch, out)
}

// Prints the record as in GenBank.
pub fn mirror_genbank(store: &[u8], out: &mut [u8]) -> u64
    ensures { AskedInto page store.now out.old result out.new }
{
    genbank_call::print_record(store, out)
}

// Lists where the minimal unique repeats stand.
pub fn mirror_minimal_unique(store: &[u8], out: &mut [u8]) -> u64
    ensures { AskedInto the_minimal_unique store.now out.old result out.new }
{
    minimal_unique_call::list_minimal_unique(store, out)
}

// Cuts a plain record into the fewest repeats: how many there are, and where each ends, two bytes each.
pub fn mirror_pieces(store: &[u8], out: &mut [u8]) -> u64
    ensures { AskedInto the_pieces store.now out.old result out.new }
{
    pieces_call::list_pieces(store, out)
}

// Marks a sheet of BED lines: whether it has full marks. Its four counts replace those of the mark sheet.
pub fn mirror_mark(store: &[u8], identifier: &[u8], sheet: &[u8], marks: &mut [u8]) -> u64
    ensures { AskedInto (mark identifier.now sheet.now) store.now marks.old result marks.new }
{
    mark_call::mark_list(store, identifier, sheet, marks)
}

// Reads a FASTA text: the identifier's length and the number of letters, which go to the buffer.
pub fn mirror_fasta(text: &[u8], out: &mut [u8]) -> u64
    ensures { FastaPromise text.now out.old result out.new }
{
    fasta_call::read_text(text, out)
}

// The two lengths of a text of uncertain bases: of the longest stretch that is a repeat for some choice of
// bases, and of the longest that is one for every choice.
pub fn mirror_uncertain(text: &[u8]) -> u64
    ensures { UncertainPromise text.now result }
{
    uncertain_call::longest_lengths(text)
}
