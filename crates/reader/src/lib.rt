// A line and a place in it that only moves forward, over the scanner of the crate text.
#![tactic(auto)]

ghost use Rattle.std.specs.Prelude.{◌≡◌, ◌≤◌, length};
ghost use Rattle.text.specs.Scans.{Finds};

/// A line, and the place from which it is read on.
#[derive(Clone, Copy)]
pub struct Reader<'a> {
    pub line: &'a [u8],
    pub at: usize,
}

impl<'a> Reader<'a> {
    /// A reader at a place of a line.
    pub fn start_at(line: &'a [u8], at: usize) -> Reader<'a>
        ensures { (result.line ≡ line.entry) × (result.at ≡ at) }
    {
        Reader { line, at }
    }

    /// The reader moved forward to the end of the field at its place: to the next comma, or to the line's end. No function
    /// of this crate moves a reader back.
    pub fn to_field_end(self) -> Reader<'a>
        requires { self.at ≤ length self.line.now }
        ensures { (result.line ≡ self.entry.line) × (self.entry.at ≤ result.at) × Finds self.entry.line.now 44 self.entry.at result.at }
    {
        let end = text::find(self.line, b',', self.at);
        Reader { at: end, ..self }
    }
}

/// Where the field that begins at a place of a line ends. Callers need not hold a reader.
pub fn field_end(line: &[u8], at: usize) -> usize
    requires { at ≤ length line.now }
    ensures { Finds line.now 44 at result }
{
    Reader::start_at(line, at).to_field_end().at
}
