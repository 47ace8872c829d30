// Checks the packs on standard input and prints for each the four numbers, a colon, and the area as the call leaves it.
// A case is a line `length,area`, then so many bytes of text, then a byte 10; the area has so many numbers, each 7 at
// entry. Where the cases and the expected output come from is said in the file origin.md.
#![tactic(auto)]

ghost use Rattle.std.specs.Prelude.{◌≤◌, ◌<◌, length, IfOk};

use answers::Four;
use std::io;

fn show_four(rt: &impl Print, four: Four) -> io::Result<()> {
    print!(rt;
        "{},{},{},{}",
        four.number, four.line, four.rule, four.claim
    )
}

fn show_area(rt: &impl Print, area: &[i64]) -> io::Result<()> {
    print!(rt; ":")?;
    for (i, number) in area.iter().enumerate() {
        if 0 < i {
            print!(rt; ",")?;
        }
        print!(rt; "{number}")?;
    }
    println!(rt)
}

// Checks a text with the area that is lent, and shows the answer and the area.
fn check_into(rt: &impl Print, text: &[u8], area: &mut [i64]) -> io::Result<()> {
    show_four(rt, Four::from(packs::check(text, area)))?;
    show_area(rt, area)
}

// Checks a text with an area of so many sevens.
fn check_one(rt: &impl Print, text: &[u8], room: usize) -> io::Result<()>
    requires { room ≤ 19 }
{
    let mut area = [7i64; 19];
    check_into(rt, text, &mut area[..room])
}

// A number of a header, or one that no case has.
fn number(field: &[u8]) -> usize {
    numbers::read_natural(field, 99998).unwrap_or(99999) as usize
}

// Runs the case at a place and gives the place after it, or the end where there is none.
fn run_case(rt: &impl Print, input: &[u8], at: usize) -> io::Result<usize>
    requires { at < length input.now }
    ensures { IfOk result (λ next. at < next) }
{
    let end = text::find(input, b'\n', at);
    let comma = text::find(input, b',', at);
    if end <= comma {
        return Ok(input.len());
    }
    let length = number(&input[at..comma]);
    let room = number(&input[comma + 1..end]);
    if input.len() - end < 2 {
        return Ok(input.len());
    }
    let from = end + 1;
    if input.len() - from < length {
        return Ok(input.len());
    }
    if 19 < room {
        return Ok(input.len());
    }
    let to = from + length;
    check_one(rt, &input[from..to], room)?;
    Ok(to + 1)
}

fn run_cases(rt: &impl Print, input: &[u8]) -> io::Result<()> {
    let n = input.len();
    let mut at: usize = 0;
    // No `for`: each case says where the next one begins.
    while at < n {
        at = run_case(rt, input, at)?;
    }
    Ok(())
}

// Room for all of the input. It has its own function, as the proof of `main` would otherwise go through every element.
fn input_room() -> [u8; 1048576] {
    [0u8; 1048576]
}

fn main(rt: HostRuntime) -> io::Result<()> {
    let mut input = input_room();
    let n = streams::read_full(&mut rt.reader(), &mut input)?;
    run_cases(&rt, &input[..n])
}
