// The classes of bytes as a table, so that the test of a name byte is one look, and what is read by it.
ghost use Rattle.std.specs.Prelude.{◌≡◌, ◌≤◌, length};
ghost use Rattle.words.specs.Classes.{class_of, ClassesStand, EndsWord};
ghost use Rattle.words.specs.Words.{WordRead};

use super::Word;

/// What a byte is in a name or a variable: a small letter, a capital, another byte that may stand there, or none that may.
#[derive(Clone, Copy, PartialEq, Eq)]
pub enum Class {
    Outside,
    Small,
    Capital,
    Inner,
}

const O: Class = Class::Outside;

const S: Class = Class::Small;

const C: Class = Class::Capital;

const I: Class = Class::Inner;

/// The class of each byte.
const CLASSES: [Class; 256] = [
    O, O, O, O, O, O, O, O, O, O, O, O, O, O, O, O, O, O, O, O, O, O, O, O, O, O, O, O, O, O, O, O,
    O, O, O, O, O, O, O, O, O, O, O, O, O, O, O, O, I, I, I, I, I, I, I, I, I, I, O, O, O, O, O, O,
    O, C, C, C, C, C, C, C, C, C, C, C, C, C, C, C, C, C, C, C, C, C, C, C, C, C, C, O, O, O, O, I,
    O, S, S, S, S, S, S, S, S, S, S, S, S, S, S, S, S, S, S, S, S, S, S, S, S, S, S, O, O, O, O, O,
    O, O, O, O, O, O, O, O, O, O, O, O, O, O, O, O, O, O, O, O, O, O, O, O, O, O, O, O, O, O, O, O,
    O, O, O, O, O, O, O, O, O, O, O, O, O, O, O, O, O, O, O, O, O, O, O, O, O, O, O, O, O, O, O, O,
    O, O, O, O, O, O, O, O, O, O, O, O, O, O, O, O, O, O, O, O, O, O, O, O, O, O, O, O, O, O, O, O,
    O, O, O, O, O, O, O, O, O, O, O, O, O, O, O, O, O, O, O, O, O, O, O, O, O, O, O, O, O, O, O, O,
];

/// The table of the classes of all bytes, to be kept in a local and lent: an index into the constant itself writes all of it
/// out anew.
#[derive(Clone, Copy)]
pub struct ClassTable {
    pub classes: [Class; 256],
    pub ghost right: { ClassesStand classes },
}

impl ClassTable {
    pub fn standard() -> ClassTable {
        ClassTable { classes: CLASSES }
    }

    /// The class of a byte.
    pub fn class_of(&self, b: u8) -> Class
        ensures { result ≡ class_of b }
    {
        self.classes[b as usize]
    }

    /// The first place at or after `from` whose byte no name has, or the length.
    pub fn word_end(&self, bytes: &[u8], from: usize) -> usize
        requires { from ≤ length bytes.now }
        ensures { EndsWord bytes.now from result }
    {
        for i in from..bytes.len() {
            if self.class_of(bytes[i]) == Class::Outside {
                return i;
            }
        }
        bytes.len()
    }

    /// A field as a word: a name, a variable or neither.
    pub fn word_of(&self, field: &[u8]) -> Word
        ensures { WordRead field.now result }
    {
        let [first, ..] = field else {
            return Word::Neither;
        };
        if 16 < field.len() || self.word_end(field, 0) < field.len() {
            return Word::Neither;
        }
        let words = super::words_of(field);
        match self.class_of(*first) {
            Class::Small => Word::Name(words),
            Class::Capital => Word::Variable(words),
            Class::Inner | Class::Outside => Word::Neither,
        }
    }
}
