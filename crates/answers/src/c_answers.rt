// The answers as C gets them: document 01's three calls answer with one 64-bit word, the others with four numbers.
ghost use Rattle.std.specs.Prelude.{◌≡◌, ◌^◌, ◌<◌};
ghost use Rattle.theory.specs.Words.{check_word, reserve_word, measure_word};
ghost use Rattle.theory.specs.Check.{Numbers, numbers};
ghost use Rattle.clause_theory.specs.Importations.{import_numbers};

use super::{Four, Three, Two};
use clause_theory::{ImportRefusal, Imported};
use std::marker::Model;

/// The word of check's four numbers.
pub fn check_word(four: Four) -> u64
    ensures { result ≡ check_word four }
{
    four.number as u64
        + four.line as u64 * 256
        + four.rule as u64 * 16777216
        + four.claim as u64 * 4294967296
}

/// The word of reserve's three fields, of which the middle one is below 2^48.
pub fn reserve_word(three: Three) -> u64
    requires { three.middle < 2 ^ 48 }
    ensures { result ≡ reserve_word three }
{
    three.letter as u64 + three.claim as u64 * 256 + three.middle * 65536
}

/// The word of measure's refusal and size.
pub fn measure_word(two: Two) -> u64
    ensures { result ≡ measure_word two }
{
    two.refusal as u64 + two.size as u64 * 256
}

/// Four numbers: those of a refusal, or 0 and what the call counts.
#[repr(C)]
#[derive(Clone, Copy)]
pub struct Answer {
    pub number: u64,
    pub line: u64,
    pub rule: u64,
    pub claim: u64,
}

impl Model for Answer {
    ghost Value = { Numbers };

    ghost view = { λ answer. numbers answer.number answer.line answer.rule answer.claim };

    ghost inverse = { λ n. record { number = n.number; line = n.line; rule = n.rule; claim = n.claim } };
}

/// Four numbers at the width at which C gets them.
impl From<Four> for Answer {
    ghost from_gives = { λ four answer. answer ≡ four };

    fn from(four: Four) -> Answer {
        Answer {
            number: u64::from(four.number),
            line: u64::from(four.line),
            rule: u64::from(four.rule),
            claim: u64::from(four.claim),
        }
    }
}

/// The numbers of what import answers.
impl From<Result<Imported, ImportRefusal>> for Answer {
    ghost from_gives = { λ imported answer. answer ≡ import_numbers imported };

    fn from(imported: Result<Imported, ImportRefusal>) -> Answer {
        let (number, line, rule) = match imported {
            Ok(imported) => (0, imported.clauses, imported.bytes),
            Err(ImportRefusal::NoClauses(place)) => (25, place, 0),
            Err(ImportRefusal::OverLimit(clause)) => (26, clause, 0),
            Err(ImportRefusal::ShortBuffer(clause)) => (27, clause, 0),
        };
        Answer {
            number,
            line: line as u64,
            rule: rule as u64,
            claim: 0,
        }
    }
}
