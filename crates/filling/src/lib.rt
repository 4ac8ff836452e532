// Letters added at a side of a good store, one after the other. Nobody else has the store between two
// letters, so it is not tested again at each. Every addition goes through this one loop, that of a single
// letter too: so the compiler puts the addition into the loop, and a letter costs no call.
#![tactic(auto)]

ghost use Rattle.std.specs.Prelude.{◌≡◌, true, ◌+◌, ◌≤◌, length};
ghost use Rattle.palindromes.specs.Word.{all_letters};
ghost use Rattle.store.specs.Good.{Good};
ghost use Rattle.store.specs.Layout.{capacity_in, size_in};
ghost use Rattle.store.specs.Side.{end_of};
ghost use Rattle.transitions.specs.Turning.{after_additions};
ghost use Rattle.filling.specs.Last.{LastBrings};

use outcome::answers::Added;
use partners::{partner_in, table};
use store::header;
use store::letters::Side;

// Adds letters at a side of a record that has room for them, and answers what the last of them brings. Their
// partners come from a table that is made once, since the constant is copied wherever it is looked into.
pub fn fill(store: &mut [u8], side: Side, letters: &[u8]) -> Added
    requires good { Good store.old }
    requires letters_value { (all_letters letters.now ≡ true) × (size_in store.old + length letters.now ≤ capacity_in store.old) }
    ensures store { store.new ≡ after_additions (end_of side) letters.now store.old }
    ensures last { LastBrings (end_of side) letters.now store.old result }
{
    let partners = table(header::reading(store));
    let mut last = Added::Known(0);
    for &c in letters {
        last = addition::add(store, side, c, partner_in(&partners, c));
    }
    last
}
