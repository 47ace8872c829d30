// The letters of lines and the answers of the calls, as types. What each case means is said once, in specs/Written.antt
// and specs/Answers.antt.
#![tactic(auto)]

/// What a line is, by its first field.
#[derive(Clone, Copy, PartialEq, Eq)]
pub enum Letter {
    P,
    C,
    G,
    H,
    B,
    M,
    E,
    NoLetter,
}

/// What an accepted pack counts: its lines, its rules, its `M` lines. Check answers these, or a refusal.
#[derive(Clone, Copy)]
pub struct Counts {
    pub lines: u16,
    pub rules: u8,
    pub multiplier_lines: u16,
}

/// Why check refuses a pack, one case for each number of document 01's table and of 02's requests; a line comes first.
#[derive(Clone, Copy)]
pub enum Refusal {
    /// 1: the residual area is shorter than 17 numbers.
    ShortArea,
    /// 2: the text is over 32,768 bytes.
    LongText,
    /// 3: the text is empty or its last byte is not 10.
    UnfinishedText,
    /// 4: the line is over 1,024 bytes, or has a byte outside 32 to 126.
    UnfitLine(u16),
    /// 5: the line's letter may not stand there, or is none: also an `M` line too few or too many, and any line after `E`.
    Letter(u16),
    /// 6: the text ends with no `E` line.
    NoEnd,
    /// 7: the second field is missing or no name.
    Name(u16),
    /// 8: declared already, not declared with as many arguments as the line gives, or a given predicate as a head.
    Declaration(u16),
    /// 9: wrong number of fields on a `P`, `M` or `E` line.
    FieldCount(u16),
    /// 10: an arity, kind, claim number or multiplier is malformed or out of range.
    Number(u16),
    /// 11: a field is no term.
    NoTerm(u16),
    /// 12: the line passes a count limit.
    CountLimit(u16),
    /// 13: the claim is not justified: line, rule, claim.
    Unjustified(u16, u8, u8),
    /// 20: a `G` line names a ruled predicate.
    RuledFact(u16),
    /// 21: a `G` line's terms hold a variable.
    NotGround(u16),
    /// 22: a `G` line's sizes fail a claim.
    UnmetClaim(u16),
    /// 24: on the `E` line, a ruled predicate has a claim and heads no rule.
    Headless(u16),
}

/// A bound on the asked size, and the lowest claim that gives it.
#[derive(Clone, Copy)]
pub struct Bound {
    pub size: u64,
    pub claim: u8,
}

/// Why reserve refuses a query. 15 is no longer given: what it was for is 14.
#[derive(Clone, Copy)]
pub enum QueryRefusal {
    /// 4: over 1,024 bytes, or a byte outside 32 to 126.
    UnfitQuery,
    /// 14: the name is missing or malformed, or not declared with as many arguments as the query gives.
    QueryName,
    /// 16: the asked argument is malformed or there is none of that number.
    AskedArgument,
    /// 17: a size field is malformed or out of range.
    SizeField,
    /// 18: the asked argument's own size is not `-`.
    AskedIsKnown,
}

/// What reserve answers.
#[derive(Clone, Copy)]
pub enum Reservation {
    Bounded(Bound),
    NoBound,
    /// No such fact: the lowest claim that says so.
    Impossible(u8),
    PackRefused(Refusal),
    QueryRefused(QueryRefusal),
}

/// Why sheet files nothing. Where it does, the sheet is on the page, and it answers check's counts of the pack.
#[derive(Clone, Copy)]
pub enum FilingRefusal {
    /// 23: the page is shorter than 65 bytes for each rule.
    ShortPage,
    NotAccepted(Refusal),
}

/// Why measure gives no size of a term.
#[derive(Clone, Copy)]
pub enum TermRefusal {
    /// 4: over 1,024 bytes, or a byte outside 32 to 126.
    UnfitTerm,
    /// 11: no term.
    NotTerm,
    /// 19: the term has a variable.
    HasVariable,
}
