// Runs the reference functions, which are proved equal to the definitions, over figures that others
// published, and writes a line for each fact. The file `stdout` has the published ones.
#![tactic(auto)]

use std::io;

mod repeated;
mod rich;
mod show;

fn main(rt: HostRuntime) -> io::Result<()> {
    figure_1_of_001(&rt)?;
    example_3_2_of_001(&rt)?;
    figure_1_of_003(&rt)?;
    section_2_2_of_004(&rt)?;
    inverted_of_004(&rt)?;
    repeated::show(&rt)?;
    rich::show(&rt)
}

fn figure_1_of_001(rt: &impl Print) -> io::Result<()> {
    println!(rt; "001 figure 1")?;
    show::count(rt, "AACGCAA")?;
    show::list(rt, &show::PLAIN, "AACGCAA")?;
    show::link(rt, "ACGCA")
}

fn example_3_2_of_001(rt: &impl Print) -> io::Result<()> {
    println!(rt; "001 example 3.2")?;
    show::right_end(rt, "AACAACAACA")?;
    show::link(rt, "ACAACAACA")?;
    show::stands(rt, "CAC", "AACAACAACA")?;
    show::stands(rt, "CAC", "AACAACAACAC")
}

fn figure_1_of_003(rt: &impl Print) -> io::Result<()> {
    println!(rt; "003 figure 1")?;
    show::count(rt, "AAACACACACCACC")?;
    show::list(rt, &show::PLAIN, "AAACACACACCACC")?;
    show::longest(rt, "AAACACACACCACC")?;
    show::minimal_unique(rt, "AAACACACACCACC")
}

fn section_2_2_of_004(rt: &impl Print) -> io::Result<()> {
    println!(rt; "004 section 2.2")?;
    show::right_ends(rt, "AACAGTGA")
}

fn inverted_of_004(rt: &impl Print) -> io::Result<()> {
    println!(rt; "004 inverted")?;
    // the reading of inverted records is 1
    let rule = partners::table(1);
    show::list(rt, &rule, "ACCTGCAGGT")?;
    show::list(rt, &rule, "AGTCT")
}
