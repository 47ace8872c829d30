// The variables of a clause: those that it names, in a table of words, how often `_` stands in it, and fresh numbers.
#![tactic(auto)]

ghost use Rattle.std.specs.Prelude.{◌≡◌, ◌+◌, ◌≤◌};

use words::{WordTable, Words};

mod fresh;
mod gather;

pub use fresh::fresh_number;

/// The variables of a clause: those that it names, whose words are the first of a table, and how often `_` stands, each time for
/// a variable of its own. They are no more than a clause may have.
#[derive(Clone, Copy)]
pub struct Variables {
    pub names: WordTable,
    pub named: usize,
    pub lones: usize,
    pub ghost few: { named + lones ≤ 16 },
}

impl Variables {
    /// No variables.
    pub fn none() -> Variables
        ensures { (result.named ≡ 0) × (result.lones ≡ 0) }
    {
        Variables {
            names: [Words {
                first: 0,
                second: 0,
            }; 32],
            named: 0,
            lones: 0,
        }
    }
}
