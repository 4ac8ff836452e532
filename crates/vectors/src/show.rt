// One line for each fact: the word, what is asked of it, and the answer.
use std::io;

// The empty table: every byte is its own partner.
pub const PLAIN: [u8; 0] = [];

pub fn count(rt: &impl Print, s: &str) -> io::Result<()> {
    let n = reference_listing::count(&PLAIN, s.as_bytes());
    println!(rt; "{s} count {n}")
}

pub fn link(rt: &impl Print, v: &str) -> io::Result<()> {
    let length = reference_ends::link_length(&PLAIN, v.as_bytes());
    println!(rt; "{v} link {length}")
}

pub fn right_end(rt: &impl Print, s: &str) -> io::Result<()> {
    let length = reference_ends::longest_suffix(&PLAIN, s.as_bytes());
    println!(rt; "{s} right end {length}")
}

pub fn stands(rt: &impl Print, p: &str, s: &str) -> io::Result<()> {
    let stands = u8::from(reference_places::stands(p.as_bytes(), s.as_bytes()));
    println!(rt; "{p} stands in {s} {stands}")
}

pub fn longest(rt: &impl Print, s: &str) -> io::Result<()> {
    let length = reference_longest::longest_length(&PLAIN, s.as_bytes());
    let at = reference_longest::longest_place(&PLAIN, s.as_bytes());
    println!(rt; "{s} longest {length} at {at}")
}

// A word that has the place `at`, as its place and one past its end.
fn stretch(rt: &impl Print, at: usize, length: usize) -> io::Result<()> {
    let end = at.wrapping_add(length);
    print!(rt; " {at}-{end}")
}

// Every palindrome at its first place.
pub fn list(rt: &impl Print, rule: &[u8], s: &str) -> io::Result<()> {
    print!(rt; "{s} list")?;
    let s = s.as_bytes();
    let n = reference_listing::count(rule, s);
    if n == 0 {
        print!(rt; " none")?;
    }
    for k in 0..n {
        stretch(
            rt,
            reference_listing::nth_place(rule, s, k),
            reference_listing::nth_length(rule, s, k),
        )?;
    }
    println!(rt; "")
}

// The longest palindrome at the right end after each letter.
pub fn right_ends(rt: &impl Print, s: &str) -> io::Result<()> {
    print!(rt; "{s} right ends")?;
    let s = s.as_bytes();
    for e in 1..=s.len() {
        let length = reference_ends::longest_suffix(&PLAIN, &s[..e]);
        print!(rt; " {length}")?;
    }
    println!(rt; "")
}

// The palindromes that stand once while what is left without their first and last letter does not.
pub fn minimal_unique(rt: &impl Print, s: &str) -> io::Result<()> {
    print!(rt; "{s} minimal unique")?;
    let s = s.as_bytes();
    for k in 0..reference_listing::count(&PLAIN, s) {
        let at = reference_listing::nth_place(&PLAIN, s, k);
        let length = reference_listing::nth_length(&PLAIN, s, k);
        if is_minimal_unique(s, part(s, at, length)) {
            stretch(rt, at, length)?;
        }
    }
    println!(rt; "")
}

fn is_minimal_unique(s: &[u8], w: &[u8]) -> bool {
    let n = w.len();
    reference_places::stands_once(w, s)
        && (n < 2 || !reference_places::stands_once(&w[1..n - 1], s))
}

// The letters from `at` on, as many as length says; none where the record is shorter.
fn part(s: &[u8], at: usize, length: usize) -> &[u8] {
    s.get(at..)
        .and_then(|rest| rest.get(..length))
        .unwrap_or(&[])
}
