// Rich binary strings: those that have as many palindromes as letters.
use crate::show;
use std::io;

pub fn show(rt: &impl Print) -> io::Result<()> {
    print!(rt; "rich binary strings, lengths 0 to 10:")?;
    for n in 0..=10 {
        print!(rt; " {}", of_length(n))?;
    }
    println!(rt; "")
}

// How many have n letters; none is counted past 10.
fn of_length(n: usize) -> usize {
    let mut word = [0u8; 10];
    if n <= 10 {
        number(&mut word[..n], 1 << n)
    } else {
        0
    }
}

// How many of the first `all` binary strings of the length of w are rich.
fn number(w: &mut [u8], all: usize) -> usize {
    (0..all)
        .filter(|x| {
            spell(*x, w);
            reference_listing::count(&show::PLAIN, w) == w.len()
        })
        .count()
}

// The binary digits of x as letters, the last digit first.
fn spell(x: usize, w: &mut [u8]) {
    let mut rest = x;
    for c in w.iter_mut() {
        *c = if rest % 2 == 0 { b'A' } else { b'C' };
        rest /= 2;
    }
}
