// Names and variables in the lines of a clause, which are written on a page as its tokens are read.
#![tactic(auto)]

ghost use Rattle.std.specs.Prelude.{◌≡◌, [], ◌∷◌, ◌++◌, ◌+◌, ◌-◌, ◌≤◌, ◌<◌, length, get_or, set};
ghost use Rattle.theory.specs.Text.{decimal};
ghost use Rattle.clause_theory.specs.Import.{numbered_variable};
ghost use Rattle.pages.specs.Pages.{PutAt};
ghost use Rattle.clause_tokens.specs.declared.Mark.TheVariants.{Name, Variable, Lone};
ghost use Rattle.term_lines.specs.Drawings.{Begun, InLine, RoomTold, Separated, LetterIs, Drawable, Draws};

/// The compounds that are open, and of each symbol among them the place of its arity's digit on the page.
#[derive(Clone, Copy)]
pub struct OpenCompounds {
    pub digits: [usize; 256],
    pub depth: usize,
}

impl OpenCompounds {
    /// None is open.
    pub fn none() -> OpenCompounds
        ensures { result.depth ≡ 0 }
    {
        OpenCompounds {
            digits: [0; 256],
            depth: 0,
        }
    }

    /// One more opens, whose digit stands at a place.
    pub fn push(&mut self, digit: usize)
        requires { self.old.depth < 256 }
        ensures { (self.new ≡ record { digits = set self.old.digits self.old.depth digit; depth = self.old.depth + 1 }) × (length self.new.digits ≡ 256) }
    {
        self.digits[self.depth] = digit;
        self.depth += 1;
    }

    /// The innermost is complete.
    pub fn pop(&mut self)
        requires { 0 < self.old.depth }
        ensures { self.new ≡ record { digits = self.old.digits; depth = self.old.depth - 1 } }
    {
        self.depth -= 1;
    }

    /// The place of the innermost's digit.
    pub fn last(&self) -> usize
        requires { (0 < self.now.depth) × (self.now.depth ≤ 256) }
        ensures { result ≡ get_or self.now.digits (self.now.depth - 1) 0 }
    {
        self.digits[self.depth - 1]
    }
}

/// How far the lines of a clause are written: the place on the page after what is written, where this line begins, how many
/// lines are complete, how many arguments of the atom have begun, and which compounds are open.
// The page is no field: it is lent anew for each clause, while one pen, with its 2 KB of places, serves for all of them.
#[derive(Clone, Copy)]
pub struct Pen {
    pub to: usize,
    pub line: usize,
    pub atoms: usize,
    pub arguments: usize,
    pub compounds: OpenCompounds,
}

/// The letter of a clause's line: the first is the head's.
#[tactic(auto, using(crate::proofs::Drawing::letter_head, crate::proofs::Drawing::letter_subgoal))]
fn letter(atoms: usize) -> u8
    ensures { LetterIs atoms result }
{
    if atoms == 0 { b'H' } else { b'B' }
}

/// Writes a letter, a comma and a name.
fn put_front(name: &[u8], letter: u8, page: &mut [u8], to: usize) -> usize
    requires { to + (length name.now + 2) ≤ length page.old }
    ensures { PutAt (letter ∷ 44 ∷ name.now) (length name.now + 2) page.old page.new to result }
{
    let comma = pages::put_byte(letter, page, to);
    let first = pages::put_byte(b',', page, comma);
    pages::put_text(name, page, first)
}

/// Writes a name, `/` and the digit 0.
#[tactic(auto, using(crate::proofs::Pieces::bare_put))]
fn put_bare(name: &[u8], page: &mut [u8], to: usize) -> usize
    requires { to + (length name.now + 2) ≤ length page.old }
    ensures { PutAt (name.now ++ (47 ∷ 48 ∷ [])) (length name.now + 2) page.old page.new to result }
{
    let slash = pages::put_text(name, page, to);
    let digit = pages::put_byte(b'/', page, slash);
    pages::put_byte(b'0', page, digit)
}

/// Writes `V` and a number.
fn put_numbered(number: usize, page: &mut [u8], to: usize) -> usize
    requires { to + (length (decimal number) + 1) ≤ length page.old }
    ensures { PutAt (numbered_variable number) (length (decimal number) + 1) page.old page.new to result }
{
    let digits = pages::put_byte(b'V', page, to);
    pages::put_number(number as u64, page, digits)
}

impl Pen {
    /// A pen that has written nothing.
    pub fn new() -> Pen
        ensures { Begun result }
    {
        Pen {
            to: 0,
            line: 0,
            atoms: 0,
            arguments: 0,
            compounds: OpenCompounds::none(),
        }
    }

    /// Goes to the front of a page. The places of digits are not cleared: of what is not open none is read.
    // Not `*self = Pen::new()`, which would clear them at each clause.
    pub fn begin(&mut self)
        ensures { Begun self.new }
    {
        self.to = 0;
        self.line = 0;
        self.atoms = 0;
        self.arguments = 0;
        self.compounds.depth = 0;
    }

    /// Whether so many bytes more have no room on the page, or in this line.
    #[tactic(auto, using(crate::proofs::Drawing::room_told))]
    fn lacks_room(&self, count: usize, page: &[u8]) -> bool
        requires { InLine self.now page.now }
        ensures { RoomTold (length page.now - self.now.to) (self.now.to - self.now.line) count result }
    {
        let left = page.len() - self.to;
        let used = self.to - self.line;
        (left < count) | (1024 - used < count)
    }

    /// Writes one byte more in this line, where it has room.
    #[tactic(auto, using(crate::proofs::Drawing::separator_none, crate::proofs::Drawing::separator_put))]
    pub fn put_separator(&mut self, separator: u8, page: &mut [u8]) -> Option<()>
        requires { InLine self.old page.old }
        ensures { Separated separator self.old page.old result self.new page.new }
    {
        if self.lacks_room(1, page) {
            return None;
        }
        self.to = pages::put_byte(separator, page, self.to);
        Some(())
    }

    /// The name of a head or a subgoal begins a line.
    fn put_atom(&mut self, name: &[u8], page: &mut [u8]) -> Option<()>
        requires { (self.old.compounds.depth ≡ 0) × Drawable name.now Name 0 self.old page.old }
        ensures { Draws name.now Name 0 self.old page.old result self.new page.new }
    {
        if 16 < name.len() {
            return None;
        }
        if 8 < self.atoms {
            return None;
        }
        self.line = self.to;
        if self.lacks_room(name.len() + 2, page) {
            return None;
        }
        self.to = put_front(name, letter(self.atoms), page, self.to);
        self.arguments = 0;
        Some(())
    }

    /// The name of a symbol, as if it had no arguments.
    fn put_symbol(&mut self, name: &[u8], page: &mut [u8]) -> Option<()>
        requires { (self.old.compounds.depth ≡ 0 → ⊥) × Drawable name.now Name 0 self.old page.old }
        ensures { Draws name.now Name 0 self.old page.old result self.new page.new }
    {
        if 16 < name.len() {
            return None;
        }
        if self.lacks_room(name.len() + 2, page) {
            return None;
        }
        self.to = put_bare(name, page, self.to);
        Some(())
    }

    /// A name: of a head or a subgoal where nothing is open.
    pub fn put_name(&mut self, name: &[u8], page: &mut [u8]) -> Option<()>
        requires { Drawable name.now Name 0 self.old page.old }
        ensures { Draws name.now Name 0 self.old page.old result self.new page.new }
    {
        if self.compounds.depth == 0 {
            self.put_atom(name, page)
        } else {
            self.put_symbol(name, page)
        }
    }

    /// A variable that is named.
    pub fn put_variable(&mut self, name: &[u8], page: &mut [u8]) -> Option<()>
        requires { Drawable name.now Variable 0 self.old page.old }
        ensures { Draws name.now Variable 0 self.old page.old result self.new page.new }
    {
        if 16 < name.len() {
            return None;
        }
        if self.lacks_room(name.len(), page) {
            return None;
        }
        self.to = pages::put_text(name, page, self.to);
        Some(())
    }

    /// A fresh variable, for a lone `_`.
    pub fn put_lone(&mut self, number: usize, page: &mut [u8]) -> Option<()>
        requires { Drawable [] Lone number self.old page.old }
        ensures { Draws [] Lone number self.old page.old result self.new page.new }
    {
        let many = pages::digits(number as u64);
        if self.lacks_room(many + 1, page) {
            return None;
        }
        self.to = put_numbered(number, page, self.to);
        Some(())
    }
}
