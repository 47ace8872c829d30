// The tables that a pack is loaded into, the state that goes with them, and what the steps of a line answer. How they stand
// for a pack is said in specs/Tables.antt.
//
// The tables are flat arrays that the caller lends.
#![tactic(auto)]

ghost use Rattle.std.specs.Prelude.{◌≡◌, ◌≤◌, ◌<◌, ◌^◌, eqb, pos, replicate};
ghost use Rattle.std.specs.Int.Bits.{bit_or};
ghost use Rattle.tables.specs.Tables.{no_signature, claim_place, row_place};

use theory::Letter;
use words::Words;

mod keys;

pub use keys::{place, place_by};

/// Whether a predicate has rules in the pack, or is given: its facts come from outside.
#[derive(Clone, Copy, PartialEq, Eq)]
pub enum Kind {
    Ruled,
    Given,
}

/// A declared predicate: the words of its name, its arity, its kind, and the number of claims on it. The bounds on its numbers
/// stand in a relation on the table (`SafeSignatures`): as ghost fields they were tried. `no_signature` and `with_claims` then
/// have to bring proofs, and that the tables begin with `no_signature` is an equation between such proofs, which did not close.
/// So it is with `State` and `SafeState`.
#[derive(Clone, Copy)]
pub struct Signature {
    pub words: Words,
    pub kind: Kind,
    pub arity: u8,
    pub claims: u8,
}

/// What stands in the table where no predicate is declared yet.
pub const NO_SIGNATURE: Signature = Signature {
    words: Words {
        first: 0,
        second: 0,
    },
    kind: Kind::Ruled,
    arity: 0,
    claims: 0,
};

/// The predicates, in the order of their `P` lines.
pub type Signatures = [Signature; 32];

/// Claim j on the predicate at place i: nine numbers from `claim_place(i, j)` on, zeros after the last.
pub type Claims = [i16; 4608];

/// The names of the last rule's variables.
pub type Variables = words::WordTable;

/// The forms of the last rule's arguments, rows of 17 numbers: argument k of atom a from `row_place(a, k)` on. The head is
/// atom 0, the subgoal at place s atom s + 1. Before there is a rule, atom 0 is the fact of a `G` line.
pub type Rows = terms::Rows;

/// The weights of an `M` line, nine for each atom: of its constant, then of its arguments.
pub type Weights = [i32; 81];

/// A claim on one of the last rule's subgoals: where its numbers begin, and which subgoal it is on.
#[derive(Clone, Copy)]
pub struct Slot {
    pub place: u16,
    pub subgoal: u16,
}

/// What stands in the table where no claim is on a subgoal yet.
pub const NO_SLOT: Slot = Slot {
    place: 0,
    subgoal: 0,
};

/// The claims on the last rule's subgoals, in the order of the rule's multipliers.
pub type Slots = [Slot; 128];

/// Where names and variables stood before: any content will do.
pub type Hints = words::Hints;

/// The tables that outlive the lines of a pack: what queries and the sheet ask after its last line.
#[derive(Clone, Copy)]
pub struct Tables {
    pub signatures: Signatures,
    pub claims: Claims,
}

impl Tables {
    /// The tables before any line.
    pub fn empty() -> Tables
        ensures signatures { result.signatures ≡ replicate 32 no_signature }
        ensures claims { result.claims ≡ replicate 4608 (pos 0) }
    {
        Tables {
            signatures: [NO_SIGNATURE; 32],
            claims: [0i16; 4608],
        }
    }
}

/// Where the numbers of a claim on a predicate begin.
pub fn claim_place(predicate: usize, claim: usize) -> usize
    requires { (predicate < 32) × (claim < 16) }
    ensures { result ≡ claim_place predicate claim }
{
    (predicate * 16 + claim) * 9
}

/// Where the row of an atom's argument begins.
pub fn row_place(atom: usize, argument: usize) -> usize
    requires { (atom ≤ 8) × (argument < 8) }
    ensures { result ≡ row_place atom argument }
{
    (atom * 8 + argument) * 17
}

/// A set of predicates: bit i is that of the predicate at place i. It has the width of the state's other numbers, since a
/// narrower one among them makes copies of the state slow.
pub type PredicateSet = u64;

/// A set with one predicate more, or the same where that is in it.
pub fn with_predicate(set: PredicateSet, place: usize) -> PredicateSet
    requires { place < 32 }
    ensures { result ≡ bit_or set (2 ^ place) }
{
    set | (1u64 << place)
}

/// Whether each predicate of a set is in another.
pub fn is_within(set: PredicateSet, other: PredicateSet) -> bool
    ensures { result ≡ eqb (bit_or set other) other }
{
    (set | other) == other
}

/// The scalars that go with the tables. Their order matters for speed: the flags stand last, since gaps after them, between
/// the numbers, make copies slow, and what seldom changes stands in front.
#[derive(Clone, Copy)]
pub struct State {
    pub predicates: usize,
    /// The predicates that have a fact.
    pub shipped: PredicateSet,
    /// The ruled predicates that have a claim: each has to head a rule.
    pub owing: PredicateSet,
    /// The predicates that head a rule.
    pub headed: PredicateSet,
    pub rules: usize,
    pub multiplier_lines: usize,
    /// Of the last rule: its head's predicate, subgoals, variables, claims on subgoals, and `M` lines so far.
    pub head: usize,
    pub subgoals: usize,
    pub variables: usize,
    pub slots: usize,
    pub multipliers: usize,
    /// Whether there is a claim.
    pub claimed: bool,
    pub ended: bool,
}

/// How lines are judged: as those of a whole pack, or the same but that no ruled predicate with a claim has to head a rule.
#[derive(Clone, Copy)]
pub enum Manner {
    Whole,
    ButForHeads,
}

/// What is wrong with a line: one case for each number that a line may have, of document 01's table and of later requests. A step
/// of a line that refuses it answers `Err` with one of them.
#[derive(Clone, Copy, PartialEq, Eq)]
pub enum Fault {
    UnfitLine,
    Letter,
    Name,
    Declaration,
    FieldCount,
    Number,
    NoTerm,
    CountLimit,
    Unjustified,
    RuledFact,
    NotGround,
    UnmetClaim,
    Headless,
}

/// A line whose tests before its fields are read are done: what the fields and the line's end need.
#[derive(Clone, Copy)]
pub struct Opened {
    pub letter: Letter,
    /// The place of the predicate that the line names or declares, among the declared ones.
    pub predicate: usize,
    /// Of a line that declares a predicate, what it declares; of another `NO_SIGNATURE`. An option would be no plainer: the end of
    /// a `P` line, which alone reads it, would have to ask for it by a clause.
    pub signature: Signature,
    /// Where the fields that are still to be read begin.
    pub from: usize,
}
