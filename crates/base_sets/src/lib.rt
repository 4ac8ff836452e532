// The four-bit sets of the bases that codes stand for, and a text read into them.
#![tactic(auto)]

ghost use Rattle.std.specs.Prelude.{◌≡◌, true, ◌≤◌, length};
ghost use Rattle.ambiguity.specs.Code.{set_of, all_codes};
ghost use Rattle.base_sets.specs.Sets.{letter_sets, certain_of, SetsRead};

// The bit of each base.
const A: u8 = 1;

const C: u8 = 2;

const G: u8 = 4;

const T: u8 = 8;

// The sets of the letters, in either case: that of letter c at place c % 32, and 0 at each place
// that no code has.
const SETS: [u8; 32] = [
    0,
    A, // A
    C | G | T, // B
    C, // C
    A | G | T, // D
    0, // E
    0, // F
    G, // G
    A | C | T, // H
    0, // I
    0, // J
    G | T, // K
    0, // L
    A | C, // M
    A | C | G | T, // N
    0, // O
    0, // P
    0, // Q
    A | G, // R
    C | G, // S
    T, // T
    0, // U
    A | C | G, // V
    A | T, // W
    0, // X
    C | T, // Y
    0, // Z
    0,
    0,
    0,
    0,
    0,
];

// The table. Whoever reads a text makes it once and lends it: the constant is copied to the stack
// where it is looked up at a place not known.
fn letter_sets() -> [u8; 32]
    ensures { result ≡ letter_sets }
{
    SETS
}

// The set of a byte, by the table; 0 for one that is no code, as every byte below 64 and above
// 127 is.
fn set_of(letters: &[u8; 32], c: u8) -> u8
    requires { letters.now ≡ letter_sets }
    ensures { result ≡ set_of c }
{
    if c / 64 == 1 {
        letters[usize::from(c % 32)]
    } else {
        0
    }
}

// The set itself where it has one base, so that its code is certain, and the empty set for any
// other.
fn certain_of(set: u8) -> u8
    ensures { result ≡ certain_of set }
{
    if u8::count_ones(set) == 1 { set } else { 0 }
}

// Whether every byte of the text is a code. If so, the buffers begin with the sets of the text
// and with those of its certain codes.
pub fn read_sets(text: &[u8], sets: &mut [u8], certain: &mut [u8]) -> bool
    requires { (length text.now ≤ length sets.old) × (length text.now ≤ length certain.old) }
    ensures codes { result ≡ all_codes text.now }
    ensures sets { result ≡ true → SetsRead text.now sets.new certain.new }
{
    let letters = letter_sets();
    for (i, c) in text.iter().enumerate() {
        let set = set_of(&letters, *c);
        if set == 0 {
            return false;
        }
        sets[i] = set;
        certain[i] = certain_of(set);
    }
    true
}
