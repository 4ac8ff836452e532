// The rows of the table: which are in use, and what each says of its palindrome.
ghost use Rattle.std.specs.Prelude.{◌≡◌, true, ◌+◌, ◌<◌, length};
ghost use Rattle.palindromes.specs.Node.{length_of, link_of, inner_of};
ghost use Rattle.store.specs.Layout.{used_in};
ghost use Rattle.store.specs.Good.{rule_of, node_in, Good};
ghost use Rattle.transitions.specs.Rows.{row_of};

use store::rows::Row;
use store::{header, rows};

// Whether the number is a root's or that of a row in use.
#[tactic(auto, unfolding(palindromes::specs::Refusal::store_size, store::specs::Layout::used_in))]
pub fn is_used(b: &[u8], r: usize) -> bool
    requires { Good b.now }
    ensures { result ≡ used_in b.now r }
{
    if r <= Row::EMPTY {
        return true;
    }
    if header::capacity(b) + 2 <= r {
        return false;
    }
    rows::rank_of(b, r) < header::count(b)
}

// What the row question answers: the signed length of the row's palindrome, the row of its longest
// proper suffix and the row of what stands between its outer letters.
#[derive(Clone, Copy)]
pub struct RowAnswer {
    pub length: i32,
    pub link: usize,
    pub inner: usize,
}

// What row r says.
pub fn row(b: &[u8], r: usize) -> RowAnswer
    requires good { Good b.now }
    requires r_value { used_in b.now r ≡ true }
    ensures length { result.length ≡ length_of (node_in b.now r) }
    ensures link { result.link ≡ row_of b.now (link_of (rule_of b.now) (node_in b.now r)) }
    ensures inner { result.inner ≡ row_of b.now (inner_of (node_in b.now r)) }
{
    let link = rows::link_of(b, r);
    let inner = rows::inner_of(b, r);
    RowAnswer {
        length: rows::length_of(b, r),
        link,
        inner,
    }
}
