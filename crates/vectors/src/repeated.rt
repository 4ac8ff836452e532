// A record of one letter, of the greatest length: every stretch is a palindrome.
use crate::show;
use std::io;

pub fn show(rt: &impl Print) -> io::Result<()> {
    println!(rt; "1024 times A")?;
    let s = [b'A'; 1024];
    println!(rt; "count {}", reference_listing::count(&show::PLAIN, &s))?;
    println!(rt; "by place {}", by_place(&s))
}

// The number of palindromes, each counted at every place: the words of one letter are its prefixes.
fn by_place(s: &[u8]) -> usize {
    (1..=s.len())
        .map(|e| reference_places::frequency(&s[..e], s))
        .fold(0, usize::wrapping_add)
}
