// Fresh numbers: the lowest whose variable a clause does not name.

ghost use Rattle.std.specs.Prelude.{◌≡◌, ◌+◌, ◌<◌};
ghost use Rattle.words.specs.Words.{words_of};
ghost use Rattle.clause_theory.specs.Import.{numbered_variable};
ghost use Rattle.clause_variables.specs.FreshNumbers.{Tabled, NextFree};

use crate::Variables;
use words::{WordTable, Words};

/// The lowest number from one on whose variable is not in a table of so many.
pub fn fresh_number(names: &WordTable, named: usize, from: usize) -> usize
    requires { Tabled names.now named × (from + named < 100) }
    ensures { NextFree names.now named from result }
{
    let mut number = from;
    // no `for`: that some number is free is what ends the search, and no code tells it
    while words::place(names, named, numbered(number)) < named {
        number += 1;
    }
    number
}

impl Variables {
    /// The lowest number from one on whose variable is not among these.
    pub fn next_fresh(&self, from: usize) -> usize
        requires { Tabled self.now.names self.now.named × (from + self.now.named < 100) }
        ensures { NextFree self.now.names self.now.named from result }
    {
        fresh_number(&self.names, self.named, from)
    }
}

/// The words of `V` and a number below 100.
fn numbered(number: usize) -> Words
    requires { number < 100 }
    ensures { result ≡ words_of (numbered_variable number) }
{
    if number < 10 {
        return Words {
            first: 86 + (48 + number as u64) * 256,
            second: 0,
        };
    }
    Words {
        first: 86 + (48 + number as u64 / 10) * 256 + (48 + number as u64 % 10) * 65536,
        second: 0,
    }
}
