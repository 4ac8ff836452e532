// A BED line of three fields, read: they stand between tabs, and the second and the third are numbers.
// Each function is proved to answer what specs/Sheet.antt of the crate palindromes says.
#![tactic(auto)]

ghost use Rattle.std.specs.Prelude.{◌≡◌};
ghost use Rattle.palindromes.specs.Sheet.{needless_zero, split, line_of};
ghost use Rattle.bed_reader.specs.Reading.{place_of, number_of, parsed_of};

// A line: whether its identifier is the one given, and its two numbers.
#[derive(Clone, Copy)]
pub struct Entry {
    pub agrees: bool,
    pub start: usize,
    pub end: usize,
}

// The place of the first byte c, and the length where there is none.
pub fn find_byte(text: &[u8], c: u8) -> usize
    ensures { result ≡ place_of c text.now }
{
    text.iter().position(|b| *b == c).unwrap_or(text.len())
}

// Whether a digit 0 with a byte behind it comes first.
fn needless_zero(field: &[u8]) -> bool
    ensures { result ≡ needless_zero field.now }
{
    field.len() > 1 && field[0] == b'0'
}

// The number that a field says: one to four digits, and no needless zero in front.
fn read_number(field: &[u8]) -> Option<usize>
    ensures { result ≡ number_of field.now }
{
    if field.is_empty() || field.len() > 4 || needless_zero(field) {
        return None;
    }
    let mut said = 0;
    for b in field {
        if !b.is_ascii_digit() {
            return None;
        }
        said = said * 10 + usize::from(*b - b'0');
    }
    Some(said)
}

// What the bytes before an LF say: a line, if they are one. The digits' test of the third field tells a
// fourth one too.
pub fn parse(line: &[u8], identifier: &[u8]) -> Option<Entry>
    ensures { result ≡ parsed_of identifier.now (line_of (split 9 line.now)) }
{
    let n = line.len();
    let first = find_byte(line, b'\t');
    if n <= first {
        return None;
    }
    let from = first + 1;
    let second = from + find_byte(&line[from..], b'\t');
    if n <= second {
        return None;
    }
    let third = second + 1;
    let start = read_number(&line[from..second])?;
    let end = read_number(&line[third..])?;
    Some(Entry {
        agrees: &line[..first] == identifier,
        start,
        end,
    })
}
