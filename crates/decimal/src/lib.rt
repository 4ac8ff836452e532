// Decimal digits, without leading zeros, as specs/Bed.antt of the crate palindromes says. They are
// written into a buffer that the caller lends, from a place on.
#![tactic(auto)]

ghost use Rattle.std.specs.Prelude.{◌≡◌, ◌+◌, ◌<◌, ◌≤◌, length};
ghost use Rattle.std.proofs.lemmas.List.Edits.{sets};
ghost use Rattle.palindromes.specs.Bed.{decimal};

// How many digits a number has.
pub fn digits(n: usize) -> usize
    requires { n < 65536 }
    ensures { (result ≡ length (decimal n)) × (1 ≤ result) × (result ≤ 5) }
{
    let mut rest = n;
    let mut count: usize = 1;
    while 10 <= rest {
        rest /= 10;
        count += 1;
    }
    count
}

// Writes a number's digits from the place `at` on, the last digit first, and answers the place
// behind them.
pub fn put_decimal(out: &mut [u8], at: usize, n: usize) -> usize
    requires { (n < 65536) × (at + length (decimal n) ≤ length out.old) }
    ensures written { out.new ≡ sets out.old at (decimal n) }
    ensures behind { result ≡ at + length (decimal n) }
{
    let end = at + digits(n);
    let mut left = n;
    let mut i = end - 1;
    while 10 <= left {
        out[i] = b'0' + (left % 10) as u8;
        left /= 10;
        i -= 1;
    }
    out[i] = b'0' + left as u8;
    end
}
