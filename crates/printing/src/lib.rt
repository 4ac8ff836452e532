// From the bytes of a FASTA text to the bytes that mirrorlist prints: a text that is too long is
// refused before it is read.
#![tactic(auto)]

ghost use Rattle.std.specs.Prelude.{◌≡◌, ◌≤◌, length};
ghost use Rattle.std.proofs.lemmas.List.Edits.{sets};
ghost use Rattle.printing.specs.Printed.{printed};

use refusal::Refusal;
use refusal_line::put_line;
use text_printing::print_text;

// Writes what mirrorlist prints for a text at the front of `out`, and answers how many bytes it has.
pub fn print(text: &[u8], out: &mut [u8]) -> usize
    requires { 46080 ≤ length out.old }
    ensures written { out.new ≡ sets out.old 0 (printed text.now) }
    ensures behind { result ≡ length (printed text.now) }
{
    if 65536 < text.len() {
        return put_line(out, Refusal::LongText);
    }
    print_text(text, out)
}
