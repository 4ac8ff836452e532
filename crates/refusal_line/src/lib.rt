// The line that is printed for a refusal.
#![tactic(auto)]

ghost use Rattle.std.specs.Prelude.{◌≡◌, ◌≤◌, ◌<◌, length};
ghost use Rattle.std.proofs.lemmas.List.Edits.{sets};
ghost use Rattle.refusal.specs.Number.{number_of};
ghost use Rattle.refusal_line.specs.RefusalLine.{refused_line};

use refusal::Refusal;

// Writes the line of a number at the front of `out`, and answers how many bytes it has.
pub fn put_refusal(out: &mut [u8], number: usize) -> usize
    requires { (number < 65536) × (16 ≤ length out.old) }
    ensures written { out.new ≡ sets out.old 0 (refused_line number) }
    ensures behind { result ≡ length (refused_line number) }
{
    let at = bed::copy(out, 0, b"# refused ");
    let end = decimal::put_decimal(out, at, number);
    out[end] = b'\n';
    end + 1
}

// Writes the line of a refusal in the same way.
pub fn put_line(out: &mut [u8], refusal: Refusal) -> usize
    requires { 16 ≤ length out.old }
    ensures written { out.new ≡ sets out.old 0 (refused_line (number_of refusal)) }
    ensures behind { result ≡ length (refused_line (number_of refusal)) }
{
    put_refusal(out, refusal.number() as usize)
}
