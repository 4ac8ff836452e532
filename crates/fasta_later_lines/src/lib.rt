// The later lines of a FASTA text: one pass judges them and counts their letters, one pass writes the
// letters.
//
// A byte is read as its capital, so that a, c, g and t are letters too.
#![tactic(auto)]

ghost use Rattle.std.specs.Prelude.{◌≡◌, true, ◌+◌, ◌≤◌, ◌<◌, length, drop, get_or};
ghost use Rattle.std.proofs.lemmas.List.Edits.{sets};
ghost use Rattle.palindromes.specs.Word.{is_letter};
ghost use Rattle.palindromes.specs.Fasta.{upper, letters, kind_of, read_lines};
ghost use Rattle.refusal.specs.Number.{with_number};
ghost use Rattle.fasta_later_lines.specs.Passes.{kind_named, tally_after, letters_of};

use fasta_first_line::lf_at;
use refusal::Refusal;

// What a byte of a later line is.
#[derive(Clone, Copy)]
pub enum ByteKind {
    SecondHeader,
    LineEnd,
    BeforeLf,
    Letter,
    Other,
}

// Whether a byte is read as a letter. All eight bytes are one mask to the compiler: to take the capital
// first and to test that is slower.
fn reads_as_letter(b: u8) -> bool
    ensures { result ≡ is_letter (upper b) }
{
    match b {
        b'A' | b'C' | b'G' | b'T' | b'a' | b'c' | b'g' | b't' => true,
        _ => false,
    }
}

// The letter that a byte is read as. A letter's two cases have the same last five bits, and capitals
// stand from 64 on.
fn capital(b: u8) -> u8
    requires { is_letter (upper b) ≡ true }
    ensures { result ≡ upper b }
{
    b % 32 + 64
}

// What the byte at this place is. Most bytes are letters, so that test comes first.
fn kind_at(text: &[u8], at: usize, line_start: bool) -> ByteKind
    requires { at < length text.now }
    ensures { kind_named result ≡ kind_of line_start (upper (get_or text.now at 0)) (drop (at + 1) text.now) }
{
    let b = text[at];
    if reads_as_letter(b) {
        return ByteKind::Letter;
    }
    if line_start && b == b'>' {
        return ByteKind::SecondHeader;
    }
    match b {
        b'\n' => ByteKind::LineEnd,
        b'\r' => {
            if lf_at(text, at + 1) {
                ByteKind::BeforeLf
            } else {
                ByteKind::Other
            }
        }
        _ => ByteKind::Other,
    }
}

// Judges the lines from this place on and counts their letters: how many there are, or the first fault.
pub fn count_letters(text: &[u8], start: usize) -> Result<usize, Refusal>
    ensures { with_number result ≡ tally_after 0 (read_lines (drop start text.now) true 1024) }
{
    let mut n = 0;
    let mut line_start = true;
    for i in start..text.len() {
        match kind_at(text, i, line_start) {
            ByteKind::SecondHeader => return Err(Refusal::SecondHeader),
            ByteKind::Other => return Err(Refusal::NoLetter),
            ByteKind::LineEnd => line_start = true,
            ByteKind::BeforeLf => {}
            ByteKind::Letter => {
                if n == 1024 {
                    return Err(Refusal::TooManyLetters);
                }
                n += 1;
                line_start = false;
            }
        }
    }
    Ok(n)
}

// Writes the letters of lines that were found good: every other byte there belongs to a line's end.
pub fn write_letters(text: &[u8], start: usize, out: &mut [u8])
    requires true_value { read_lines (drop start text.now) true 1024 ≡ letters (letters_of (read_lines (drop start text.now) true 1024)) }
    requires true_in_bounds { length (letters_of (read_lines (drop start text.now) true 1024)) ≤ length out.old }
    ensures { out.new ≡ sets out.old 0 (letters_of (read_lines (drop start text.now) true 1024)) }
{
    let mut n = 0;
    for i in start..text.len() {
        let b = text[i];
        if reads_as_letter(b) {
            out[n] = capital(b);
            n += 1;
        }
    }
}
