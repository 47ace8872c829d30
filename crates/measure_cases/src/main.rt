// Measures each line of standard input as a term and prints the refusal, or 0, and the size. Where the lines and the
// expected output come from is said in the file origin.md.
#![tactic(auto)]

use answers::Two;
use std::io;

/// Measures a term and shows the answer's two numbers.
fn show(rt: &impl Print, term: &[u8]) -> io::Result<()> {
    let two = Two::from(terms::measure(term));
    println!(rt; "{},{}", two.refusal, two.size)
}

fn measure_lines(rt: &impl Print, input: &[u8]) -> io::Result<()> {
    for line in text::Lines::of(input) {
        show(rt, line)?;
    }
    Ok(())
}

fn main(rt: HostRuntime) -> io::Result<()> {
    let mut input = [0u8; 65536];
    let n = streams::read_full(&mut rt.reader(), &mut input)?;
    measure_lines(&rt, &input[..n])?;
    // a byte 10, which no line can show
    show(&rt, b"1000\n")
}
