// What is printed for a FASTA text of any length: the text is read, its letters are added at the right
// of a record of capacity 1,024, and the record's palindromes are listed; or its refusal is printed.
#![tactic(auto)]

ghost use Rattle.std.specs.Prelude.{◌≡◌, ◌≤◌, length, take};
ghost use Rattle.std.proofs.lemmas.List.Edits.{sets};
ghost use Rattle.palindromes.specs.Palindrome.{plain};
ghost use Rattle.palindromes.specs.Bed.{listing};
ghost use Rattle.palindromes.specs.Fasta.{read_fasta};
ghost use Rattle.text_printing.specs.PrintedFor.{identifier_of, printed_for};
ghost use Rattle.text_printing.specs.Read.{Read};

use letters_listing::list_letters;
use refusal_line::put_line;

// Lists the first m letters of the buffer under the identifier of n bytes that the text begins with.
fn list_read(text: &[u8], n: usize, letters: &[u8], m: usize, out: &mut [u8]) -> usize
    requires read { Read text.now n letters.now m }
    requires in_bounds { 46080 ≤ length out.old }
    ensures written { out.new ≡ sets out.old 0 (listing plain (identifier_of n text.now) (take m letters.now)) }
    ensures behind { result ≡ length (listing plain (identifier_of n text.now) (take m letters.now)) }
{
    list_letters(&text[1..1 + n], &letters[..m], out)
}

// Writes what is printed for a text of any length.
pub fn print_text(text: &[u8], out: &mut [u8]) -> usize
    requires { 46080 ≤ length out.old }
    ensures written { out.new ≡ sets out.old 0 (printed_for (read_fasta text.now) text.now) }
    ensures behind { result ≡ length (printed_for (read_fasta text.now) text.now) }
{
    let mut letters = [0u8; 1024];
    match fasta::read(text, &mut letters) {
        Ok(read) => list_read(text, read.identifier, &letters, read.letters, out),
        Err(refusal) => put_line(out, refusal),
    }
}
