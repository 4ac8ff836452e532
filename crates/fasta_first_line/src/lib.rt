// The first line of a FASTA text: `>`, the identifier, and where the later lines begin.
#![tactic(auto)]

ghost use Rattle.std.specs.Prelude.{◌≡◌, ◌<◌, length, drop};
ghost use Rattle.palindromes.specs.Fasta.{identifier_length, starts_with_lf, ends_identifier, good_first_line, after_first_line};

use identifier::is_identifier_byte;

// The length of the identifier after the first byte.
pub fn identifier_length(text: &[u8]) -> usize
    ensures { result ≡ identifier_length (drop 1 text.now) }
{
    for i in 1..text.len() {
        if !is_identifier_byte(text[i]) {
            return i - 1;
        }
    }
    text.len().saturating_sub(1)
}

// Whether an LF stands at this place.
pub fn lf_at(text: &[u8], at: usize) -> bool
    ensures { result ≡ starts_with_lf (drop at text.now) }
{
    at < text.len() && text[at] == b'\n'
}

// Whether an identifier that stops before this place is ended there.
fn identifier_ends_at(text: &[u8], at: usize) -> bool
    ensures { result ≡ ends_identifier (drop at text.now) }
{
    if text.len() <= at {
        return true;
    }
    match text[at] {
        b' ' | b'\t' => true,
        b'\n' => true,
        b'\r' => lf_at(text, at + 1),
        _ => false,
    }
}

// Whether the first line is as it must be, given its identifier's length.
pub fn good_first_line(text: &[u8], n: usize) -> bool
    requires text_nonzero { 0 < length text.now }
    requires n_value { n ≡ identifier_length (drop 1 text.now) }
    ensures { result ≡ good_first_line text.now }
{
    if text[0] != b'>' {
        return false;
    }
    if n < 1 {
        return false;
    }
    if 32 < n {
        return false;
    }
    identifier_ends_at(text, n + 1)
}

// The place after the first line.
pub fn later_lines_at(text: &[u8]) -> usize
    ensures { drop result text.now ≡ after_first_line (drop 1 text.now) }
{
    for i in 1..text.len() {
        if text[i] == b'\n' {
            return i + 1;
        }
    }
    text.len()
}
