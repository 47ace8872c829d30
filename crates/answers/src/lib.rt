// The answers of the calls as numbers: as document 01's numbers and fields, and as C gets them.
#![tactic(auto)]

ghost use Rattle.std.specs.Prelude.{◌≡◌, Ok};
ghost use Rattle.theory.specs.Check.{Numbers, numbers};
ghost use Rattle.theory.specs.Reserve.{Fields, fields};
ghost use Rattle.theory.specs.Measure.{Measured, measured};
ghost use Rattle.theory.specs.Answers.{refusal_numbers, numbers_of, filing_numbers, query_number, reserved_fields, measured_of};

use std::marker::Model;
use theory::{Counts, FilingRefusal, QueryRefusal, Refusal, Reservation, TermRefusal};

mod c_answers;

pub use c_answers::{Answer, check_word, measure_word, reserve_word};

/// Check's four numbers.
#[derive(Clone, Copy)]
pub struct Four {
    pub number: u8,
    pub line: u16,
    pub rule: u8,
    pub claim: u16,
}

impl Model for Four {
    ghost Value = { Numbers };

    ghost view = { λ four. numbers four.number four.line four.rule four.claim };

    ghost inverse = { λ n. record { number = n.number; line = n.line; rule = n.rule; claim = n.claim } };
}

/// Reserve's three fields: a letter's byte, a bound or a refusal's number, a claim.
#[derive(Clone, Copy)]
pub struct Three {
    pub letter: u8,
    pub middle: u64,
    pub claim: u8,
}

impl Model for Three {
    ghost Value = { Fields };

    ghost view = { λ three. fields three.letter three.middle three.claim };

    ghost inverse = { λ f. record { letter = f.letter; middle = f.middle; claim = f.claim } };
}

/// Measure's refusal, or 0, and the size.
#[derive(Clone, Copy)]
pub struct Two {
    pub refusal: u8,
    pub size: u32,
}

impl Model for Two {
    ghost Value = { Measured };

    ghost view = { λ two. measured two.refusal two.size };

    ghost inverse = { λ m. record { refusal = m.refusal; size = m.size } };
}

fn of_text(number: u8) -> Four
    ensures { result ≡ numbers number 0 0 0 }
{
    of_line(number, 0)
}

fn of_line(number: u8, line: u16) -> Four
    ensures { result ≡ numbers number line 0 0 }
{
    Four {
        number,
        line,
        rule: 0,
        claim: 0,
    }
}

/// The numbers of a refusal.
impl From<Refusal> for Four {
    ghost from_gives = { λ refusal four. four ≡ refusal_numbers refusal };

    fn from(refusal: Refusal) -> Four {
        match refusal {
            Refusal::ShortArea => of_text(1),
            Refusal::LongText => of_text(2),
            Refusal::UnfinishedText => of_text(3),
            Refusal::UnfitLine(line) => of_line(4, line),
            Refusal::Letter(line) => of_line(5, line),
            Refusal::NoEnd => of_text(6),
            Refusal::Name(line) => of_line(7, line),
            Refusal::Declaration(line) => of_line(8, line),
            Refusal::FieldCount(line) => of_line(9, line),
            Refusal::Number(line) => of_line(10, line),
            Refusal::NoTerm(line) => of_line(11, line),
            Refusal::CountLimit(line) => of_line(12, line),
            Refusal::Unjustified(line, rule, claim) => Four {
                number: 13,
                line,
                rule,
                claim: u16::from(claim),
            },
            Refusal::RuledFact(line) => of_line(20, line),
            Refusal::NotGround(line) => of_line(21, line),
            Refusal::UnmetClaim(line) => of_line(22, line),
            Refusal::Headless(line) => of_line(24, line),
        }
    }
}

/// The numbers of an accepted pack.
impl From<Counts> for Four {
    ghost from_gives = { λ counts four. four ≡ numbers_of (Ok counts) };

    fn from(counts: Counts) -> Four {
        Four {
            number: 0,
            line: counts.lines,
            rule: counts.rules,
            claim: counts.multiplier_lines,
        }
    }
}

/// The numbers of what check answers.
impl From<Result<Counts, Refusal>> for Four {
    ghost from_gives = { λ answer four. four ≡ numbers_of answer };

    fn from(answer: Result<Counts, Refusal>) -> Four {
        match answer {
            Ok(counts) => Four::from(counts),
            Err(refusal) => Four::from(refusal),
        }
    }
}

/// The numbers of what sheet answers.
impl From<Result<Counts, FilingRefusal>> for Four {
    ghost from_gives = { λ answer four. four ≡ filing_numbers answer };

    fn from(answer: Result<Counts, FilingRefusal>) -> Four {
        match answer {
            Ok(counts) => Four::from(counts),
            Err(FilingRefusal::ShortPage) => of_text(23),
            Err(FilingRefusal::NotAccepted(refusal)) => Four::from(refusal),
        }
    }
}

/// The number of a query's refusal.
pub fn query_number(refusal: QueryRefusal) -> u8
    ensures { result ≡ query_number refusal }
{
    match refusal {
        QueryRefusal::UnfitQuery => 4,
        QueryRefusal::QueryName => 14,
        QueryRefusal::AskedArgument => 16,
        QueryRefusal::SizeField => 17,
        QueryRefusal::AskedIsKnown => 18,
    }
}

fn refused(number: u8) -> Three
    ensures { result ≡ fields 82 number 0 }
{
    Three {
        letter: b'R',
        middle: u64::from(number),
        claim: 0,
    }
}

/// The fields of a reservation.
impl From<Reservation> for Three {
    ghost from_gives = { λ reservation three. three ≡ reserved_fields reservation };

    fn from(reservation: Reservation) -> Three {
        match reservation {
            Reservation::Bounded(bound) => Three {
                letter: b'B',
                middle: bound.size,
                claim: bound.claim,
            },
            Reservation::NoBound => Three {
                letter: b'N',
                middle: 0,
                claim: 0,
            },
            Reservation::Impossible(claim) => Three {
                letter: b'I',
                middle: 0,
                claim,
            },
            Reservation::PackRefused(refusal) => refused(Four::from(refusal).number),
            Reservation::QueryRefused(refusal) => refused(query_number(refusal)),
        }
    }
}

/// The refusal, or 0, and the size of what measure answers.
impl From<Result<u32, TermRefusal>> for Two {
    ghost from_gives = { λ answer two. two ≡ measured_of answer };

    fn from(answer: Result<u32, TermRefusal>) -> Two {
        let refusal = match answer {
            Ok(size) => return Two { refusal: 0, size },
            Err(TermRefusal::UnfitTerm) => 4,
            Err(TermRefusal::NotTerm) => 11,
            Err(TermRefusal::HasVariable) => 19,
        };
        Two { refusal, size: 0 }
    }
}
