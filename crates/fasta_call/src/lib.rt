// The host's call that reads a FASTA text. It asks nothing of the caller, and leaves the letters at the
// front of the lent buffer, or every byte as it was.
#![tactic(auto)]

ghost use Rattle.fasta_call.specs.Answer.{FastaPromise};

use outcome::answers::refuse;
use outcome::pack;

// Reads a text into the buffer: the identifier's length and the number of letters.
pub fn read_text(text: &[u8], out: &mut [u8]) -> u64
    ensures { FastaPromise text.now out.old result out.new }
{
    match fasta::read(text, out) {
        Ok(read) => pack(false, 0, read.identifier, read.letters),
        Err(refusal) => refuse(refusal),
    }
}
