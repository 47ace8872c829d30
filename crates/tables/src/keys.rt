// Where a predicate stands in the table, by its name and its arity.
ghost use Rattle.std.specs.Prelude.{◌≡◌, ◌≤◌};
ghost use Rattle.groundwork.proofs.Truth.{Decides};
ghost use Rattle.tables.specs.Tables.{heading, heading_at, heading_of, FoundAt};

use super::{Hints, Signature, Signatures};
use words::Words;

impl Signature {
    /// Whether this is the predicate of a name and an arity.
    fn is_of(&self, words: Words, arity: usize) -> bool
        ensures { Decides result (heading_of self.now ≡ heading words arity) }
    {
        self.arity as usize == arity && self.words == words
    }
}

/// The place of the predicate of a name and an arity among the first.
pub fn place(signatures: &Signatures, known: usize, words: Words, arity: usize) -> Option<usize>
    requires { known ≤ 32 }
    ensures { FoundAt (heading_at signatures.now) known (heading words arity) result }
{
    signatures[..known]
        .iter()
        .position(|s| s.is_of(words, arity))
}

/// As `place`, where the predicate stood before more often than not.
pub fn place_by(
    signatures: &Signatures,
    known: usize,
    words: Words,
    arity: usize,
    hints: &mut Hints,
) -> Option<usize>
    requires { known ≤ 32 }
    ensures { FoundAt (heading_at signatures.now) known (heading words arity) result }
{
    let key = words::hash(words, arity);
    let hint = hints[key] as usize;
    if hint < known && signatures[hint].is_of(words, arity) {
        return Some(hint);
    }
    let at = place(signatures, known, words, arity)?;
    hints[key] = at as u8;
    Some(at)
}
