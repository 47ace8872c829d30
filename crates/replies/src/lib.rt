// The parts of the program's reply: where the pack ends in the input, and the lines that are printed.
#![tactic(auto)]

ghost use Rattle.std.specs.Prelude.{[], ◌∷◌, ◌≤◌, length};
ghost use Rattle.theory.specs.Packs.{text_of};
ghost use Rattle.theory.specs.Program.{printed_numbers, printed_fields};
ghost use Rattle.pages.specs.Pages.{Puts};
ghost use Rattle.replies.specs.Replies.{PackEnds};

use answers::{Four, Three};

/// Writes check's numbers as a line of at most 24 bytes.
pub fn put_numbers(page: &mut [u8], four: Four) -> usize
    requires { 24 ≤ length page.old }
    ensures { (Puts (text_of (printed_numbers four ∷ [])) page.old page.new result) × (result ≤ 24) }
{
    let first = pages::put_field(four.number as u64, b',', page, 0);
    let second = pages::put_field(four.line as u64, b',', page, first);
    let third = pages::put_field(four.rule as u64, b',', page, second);
    pages::put_field(four.claim as u64, b'\n', page, third)
}

/// Writes reserve's fields as a line of at most 27 bytes.
pub fn put_fields(page: &mut [u8], three: Three) -> usize
    requires { 27 ≤ length page.old }
    ensures { (Puts (text_of (printed_fields three ∷ [])) page.old page.new result) × (result ≤ 27) }
{
    let claim = three.claim as u64;
    let first = pages::put_byte(three.letter, page, 0);
    let comma = pages::put_byte(b',', page, first);
    let second = pages::put_field(three.middle, b',', page, comma);
    pages::put_field(claim, b'\n', page, second)
}

/// The place after the first line `E`, with its byte 10; or the end where there is none.
pub fn pack_end(input: &[u8]) -> usize
    ensures { PackEnds input.now result }
{
    let len = input.len();
    let mut at: usize = 0;
    // By places and not over `text::Lines`: a place is asked for, and the lines' lengths would have to be added up to it.
    while at < len {
        let end = text::find(input, b'\n', at);
        if end == len {
            return len;
        }
        if end - at == 1 && input[at] == b'E' {
            return end + 1;
        }
        at = end + 1;
    }
    len
}
