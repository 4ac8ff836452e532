// mirrorlist: reads a FASTA text from standard input and prints the list of the palindromes of its
// letters. All that it does is to read and to write; what is printed is said in the crate printing.
//
// One byte more is read than a text may have, so that a text that is too long is seen to be one.
#![tactic(auto)]

ghost use Rattle.std.specs.Prelude.{◌≡◌, ◌≤◌, length, IfOk};

use std::io;
use std::io::Read;

// Room for a text. The `ensures` gives only the length, which lending the array as a slice needs.
fn text_buffer() -> [u8; 65537]
    ensures { 65537 ≡ length result }
{
    [0; 65537]
}

// Room for what is printed: 45 bytes for each of 1,024 lines.
fn lines_buffer() -> [u8; 46080]
    ensures { 46080 ≡ length result }
{
    [0; 46080]
}

// Reads its input to the end, or until the buffer is full. The end is a read of no bytes. One
// that fails leaves open what was still to come, so what was read before it is not answered.
fn read_input(from: &mut impl Read, text: &mut [u8]) -> io::Result<usize>
    ensures { IfOk result (λ n. n ≤ length text.new) }
{
    let mut n = 0;
    while n < text.len() {
        match from.read(&mut text[n..])? {
            0 => break,
            more => n += more,
        }
    }
    Ok(n)
}

// Tells on standard error what failed, and why.
fn fail(rt: &impl Eprint, what: &str, error: io::Error) -> io::Result<()> {
    eprintln!(rt; "mirrorlist: {what}: {error}")
}

fn main(rt: HostRuntime) -> io::Result<()> {
    let mut text = text_buffer();
    let n = match read_input(&mut rt.stdin(), &mut text) {
        Ok(n) => n,
        Err(error) => return fail(&rt, "standard input", error),
    };
    let mut out = lines_buffer();
    let m = printing::print(&text[..n], &mut out);
    match rt.write_all(&out[..m]) {
        Ok(()) => Ok(()),
        Err(error) => fail(&rt, "standard output", error),
    }
}
