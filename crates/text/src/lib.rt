// Scanners over bytes: where a byte stands and how often, whether all bytes may stand in a line, and eight bytes as one
// number. Fields are handed on as parts of their line; nothing is copied.
#![tactic(auto)]

ghost use Rattle.std.specs.Prelude.{◌≡◌, ◌≤◌, ◌==◌, length, position};
ghost use Rattle.theory.specs.Faults.{is_unfit};
ghost use Rattle.text.specs.Scans.{Finds};

mod counts;
mod eights;
mod lines;
mod plain;

pub use counts::count;
pub use eights::{eight_bytes, four_bytes, two_bytes};
pub use lines::Lines;
pub use plain::{is_plain, is_unfit_in};

/// The first place where `wanted` stands.
fn place_of(bytes: &[u8], wanted: u8) -> Option<usize>
    ensures { result ≡ position (λ b. b == wanted) bytes.now }
{
    bytes.iter().position(|b| *b == wanted)
}

/// As `find`, for places that are far off: blocks of 32 bytes in which `wanted` does not stand are passed over whole, each by
/// one count in two vectors, where `position` takes six instructions a byte.
#[inline(never)]
fn find_beyond(bytes: &[u8], wanted: u8, from: usize) -> usize
    requires { from ≤ length bytes.now }
    ensures { Finds bytes.now wanted from result }
{
    let mut at = from;
    // no `for` over blocks: what is asked is the place where they end
    while 32 <= bytes.len() - at && counts::count_few(&bytes[at..at + 32], wanted) == 0 {
        at += 32;
    }
    match place_of(&bytes[at..], wanted) {
        Some(ahead) => at + ahead,
        None => bytes.len(),
    }
}

/// The first place at or after `from` where `wanted` stands, or the length. It is near more often than not, since fields are
/// short.
pub fn find(bytes: &[u8], wanted: u8, from: usize) -> usize
    requires { from ≤ length bytes.now }
    ensures { Finds bytes.now wanted from result }
{
    let near = bytes.len().min(from + 16);
    match place_of(&bytes[from..near], wanted) {
        Some(ahead) => from + ahead,
        None => find_beyond(bytes, wanted, near),
    }
}

/// Whether a line is over 1,024 bytes or has a byte outside 32 to 126. With one flag, which makes vector instructions of it:
/// `any`, which leaves early, takes 20 ns and not 11 on 30 bytes, 604 and not 46 on 1,000.
pub fn is_unfit(line: &[u8]) -> bool
    ensures { result ≡ is_unfit line.now }
{
    if 1024 < line.len() {
        return true;
    }
    let mut unfit = false;
    for &b in line {
        unfit = unfit | (b < b' ') | (b'~' < b);
    }
    unfit
}
