// The variables of a clause, gathered token by token.

ghost use Rattle.std.specs.Prelude.{◌≤◌, length};
ghost use Rattle.text.specs.Scans.{part};
ghost use Rattle.clause_variables.specs.Variables.{Named, LoneCounted, Gathers, VariablesFound};

use crate::Variables;
use clause_tokens::{Mark, Token};
use words::ClassTable;

impl Variables {
    /// A variable that is named: it stands in the table, or is put there. `None`: it is too long, or there are too many.
    fn name(&mut self, text: &[u8], start: usize, end: usize) -> Option<()>
        requires { (start ≤ end) × (end ≤ length text.now) }
        ensures { Named (part text.now start end) self.old result self.new }
    {
        if 16 < end - start {
            return None;
        }
        let words = words::words_at(text, start, end);
        if words::place(&self.names, self.named, words) < self.named {
            return Some(());
        }
        if 16 <= self.named + self.lones {
            return None;
        }
        self.names[self.named] = words;
        self.named += 1;
        Some(())
    }

    fn count_lone(&mut self) -> Option<()>
        ensures { LoneCounted self.old result self.new }
    {
        if 16 <= self.named + self.lones {
            return None;
        }
        self.lones += 1;
        Some(())
    }

    /// One token more.
    fn gather(&mut self, text: &[u8], token: Token) -> Option<()>
        requires { (token.start ≤ token.end) × (token.end ≤ length text.now) }
        ensures { Gathers (part text.now token.start token.end) token.mark self.old result self.new }
    {
        match token.mark {
            Mark::Variable => self.name(text, token.start, token.end),
            Mark::Lone => self.count_lone(),
            _ => Some(()),
        }
    }

    /// Gathers the variables of the clause that starts at a place, in place of those that were there. `None`: they are too many,
    /// or the name of one is too long.
    pub fn gather_clause(&mut self, text: &[u8], from: usize, classes: &ClassTable) -> Option<()>
        requires { from ≤ length text.now }
        ensures { VariablesFound text.now from result self.new }
    {
        self.named = 0;
        self.lones = 0;
        let mut at = from;
        // no `for`: each token begins where the one before it ends
        while let Some(token) = clause_tokens::next(text, at, classes) {
            self.gather(text, token)?;
            if token.mark == Mark::Stop {
                return Some(());
            }
            at = token.end;
        }
        None
    }
}
