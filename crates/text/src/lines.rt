// The lines of a text, one after another.
ghost use Rattle.std.specs.Prelude.{◌≡◌};
ghost use Rattle.std.specs.Iterator.{YieldsFirstRef, item_count};
ghost use Rattle.theory.specs.Text.{lines_of};
ghost use Rattle.text.specs.Lines.{lines_left};

/// The lines that are left of a text: what stands before each byte 10, and what stands after the last, if anything does.
#[derive(Drop)]
pub struct Lines<'a> {
    rest: &'a [u8],
}

impl<'a> Lines<'a> {
    /// All lines of a text.
    pub fn of(text: &'a [u8]) -> Lines<'a>
        ensures { lines_left result ≡ lines_of text.now }
    {
        Lines { rest: text }
    }
}

impl<'a> Iterator for Lines<'a> {
    type Item = &'a [u8];

    ghost next_gives = { YieldsFirstRef lines_left };

    ghost remaining = { item_count lines_left };

    fn next(&mut self) -> Option<&'a [u8]> {
        if self.rest.is_empty() {
            return None;
        }
        let end = super::find(self.rest, b'\n', 0);
        let line = &self.rest[..end];
        let after = self.rest.len().min(end + 1);
        self.rest = &self.rest[after..];
        Some(line)
    }
}
