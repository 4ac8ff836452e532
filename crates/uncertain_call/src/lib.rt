// The host's call that tells the two lengths of a text of uncertain bases. It asks nothing of the caller
// and is lent no store.
#![tactic(auto)]

ghost use Rattle.uncertain_call.specs.Answer.{UncertainPromise};

use base_sets::read_sets;
use facing_sets::longest;
use outcome::answers::refuse;
use outcome::pack;
use refusal::Refusal;

// The length of the longest stretch that is a mirror repeat for some choice of bases, and of the longest
// that is one for every choice.
pub fn longest_lengths(text: &[u8]) -> u64
    ensures { UncertainPromise text.now result }
{
    let n = text.len();
    if 1024 < n {
        return refuse(Refusal::TooManyLetters);
    }
    let mut sets = [0u8; 1024];
    let mut certain = [0u8; 1024];
    if !read_sets(text, &mut sets, &mut certain) {
        return refuse(Refusal::NoLetter);
    }
    let found = longest(&sets[..n], &certain[..n]);
    pack(false, 0, found.some, found.every)
}
