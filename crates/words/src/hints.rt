// Where words stand in a table, by a row of hints: places where such words stood before. Whatever the row holds, the
// answer is right.
ghost use Rattle.std.specs.Prelude.{◌≤◌, ◌<◌};
ghost use Rattle.words.specs.Words.{words_at, StandsAt};

use super::{WordTable, Words};

/// Where words stood before, by a small number made of them: any content will do.
pub type Hints = [u8; 128];

/// A small number that tells most words apart, and the same words with different numbers.
pub fn hash(words: Words, number: usize) -> usize
    ensures { result < 128 }
{
    let x = words.first ^ words.second;
    ((x ^ (x >> 7) ^ (x >> 14) ^ (x >> 23) ^ (number as u64)) & 127) as usize
}

/// As `place`, where the words stood before more often than not. Where they stand more than once, it is one of the places.
pub fn place_by(names: &WordTable, known: usize, words: Words, hints: &mut Hints) -> usize
    requires { known ≤ 32 }
    ensures { StandsAt (words_at names.now) known words result }
{
    let key = hash(words, 0);
    let hint = hints[key] as usize;
    if hint < known && names[hint] == words {
        return hint;
    }
    let at = super::place(names, known, words);
    hints[key] = at as u8;
    at
}
