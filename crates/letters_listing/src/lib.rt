// The list of the record that letters make. The store is made here and lent to nobody.
#![tactic(auto)]

ghost use Rattle.std.specs.Prelude.{◌≡◌, true, ◌≤◌, length};
ghost use Rattle.std.proofs.lemmas.List.Edits.{sets};
ghost use Rattle.palindromes.specs.Word.{all_letters};
ghost use Rattle.palindromes.specs.Palindrome.{plain};
ghost use Rattle.palindromes.specs.Bed.{is_identifier, listing};

use filling::fill;
use opening::Reading;
use store::letters::Side;

// The bytes of a store with room for 1,024 letters. The `ensures` gives only the length, for what
// they hold is of no account to opening.
fn blank() -> [u8; 49408]
    ensures { 49408 ≡ length result }
{
    [0; 49408]
}

// Writes the list of the record that the letters make at the front of `out`, and answers how many
// bytes it has. The scratch has a bit for each of 1,024 letters.
pub fn list_letters(name: &[u8], letters: &[u8], out: &mut [u8]) -> usize
    requires name_value { is_identifier name.now ≡ true }
    requires letters_value { (all_letters letters.now ≡ true) × (length letters.now ≤ 1024) }
    requires in_bounds { 46080 ≤ length out.old }
    ensures written { out.new ≡ sets out.old 0 (listing plain name.now letters.now) }
    ensures behind { result ≡ length (listing plain name.now letters.now) }
{
    let mut store = blank();
    let mut scratch = [0u8; 128];
    opening::open(&mut store, Reading::Plain, 1024);
    fill(&mut store, Side::Right, letters);
    listing::list(&store, name, &mut scratch, out)
}
