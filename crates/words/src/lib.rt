// Names and variables as two words of eight bytes each: read from bytes, and looked up in a table.
#![tactic(auto)]

ghost use Rattle.std.specs.Prelude.{◌≤◌};
ghost use Rattle.words.specs.Words.{words_at, StandsAt};

mod few;
mod hints;
mod table;

pub use few::{words_at, words_of};
pub use hints::{Hints, hash, place_by};
pub use table::{Class, ClassTable};

/// A name or a variable as two words of eight bytes.
#[derive(Clone, Copy, PartialEq, Eq)]
pub struct Words {
    pub first: u64,
    pub second: u64,
}

/// What bytes are: a name, a variable or neither.
#[derive(Clone, Copy)]
pub enum Word {
    Name(Words),
    Variable(Words),
    Neither,
}

/// The words of up to 32 names or variables.
pub type WordTable = [Words; 32];

/// Where words stand among the first of a table, or how many those are: a number also then and no `Option`, since it is the
/// place that new words take.
pub fn place(names: &WordTable, known: usize, words: Words) -> usize
    requires { known ≤ 32 }
    ensures { StandsAt (words_at names.now) known words result }
{
    names[..known]
        .iter()
        .position(|name| *name == words)
        .unwrap_or(known)
}
