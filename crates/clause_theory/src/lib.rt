// The answer of import as types. What each case means is said once, in specs/Importations.antt.
#![tactic(auto)]

/// What import has put into the buffer: the lines of how many clauses, and how many bytes these are.
#[derive(Clone, Copy)]
pub struct Imported {
    pub clauses: usize,
    pub bytes: usize,
}

/// Why import puts nothing into the buffer.
#[derive(Clone, Copy)]
pub enum ImportRefusal {
    /// 25: the text is not in the subset: where the first token begins that no text of it has there, or the length.
    NoClauses(usize),
    /// 26: the clause of this number passes a limit.
    OverLimit(usize),
    /// 27: the buffer is too short for the lines of the clauses up to the one of this number.
    ShortBuffer(usize),
}
