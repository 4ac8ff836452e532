// The FASTA reader: it judges a whole text, and only then puts the letters into the lent buffer.
#![tactic(auto)]

ghost use Rattle.std.specs.Prelude.{true, drop};
ghost use Rattle.refusal.specs.Number.{with_number};
ghost use Rattle.palindromes.specs.Fasta.{after_first_line, read_lines, with_identifier, read_fasta};
ghost use Rattle.fasta.specs.Reader.{Answers};

use fasta_first_line::{good_first_line, identifier_length, later_lines_at};
use fasta_later_lines::{count_letters, write_letters};
use refusal::Refusal;

// What an accepted text has: the length of its identifier, and how many letters.
#[derive(Clone, Copy)]
pub struct Lengths {
    pub identifier: usize,
    pub letters: usize,
}

// Reads a FASTA text and puts its letters at the front of `out`.
pub fn read(text: &[u8], out: &mut [u8]) -> Result<Lengths, Refusal>
    ensures { Answers (read_fasta text.now) out.old (with_number result) out.new }
{
    if text.len() == 0 {
        return Err(Refusal::Identifier);
    }
    let identifier = identifier_length(text);
    if !good_first_line(text, identifier) {
        return Err(Refusal::Identifier);
    }
    read_later_lines(text, identifier, out)
}

// The answer of a text whose first line is good and has an identifier of that length.
fn read_later_lines(text: &[u8], identifier: usize, out: &mut [u8]) -> Result<Lengths, Refusal>
    ensures { Answers (with_identifier identifier (read_lines (after_first_line (drop 1 text.now)) true 1024)) out.old (with_number result) out.new }
{
    let start = later_lines_at(text);
    let letters = count_letters(text, start)?;
    if out.len() < letters {
        return Err(Refusal::ShortBuffer);
    }
    write_letters(text, start, out);
    Ok(Lengths {
        identifier,
        letters,
    })
}
