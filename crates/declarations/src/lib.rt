// `P` and `C` lines: a predicate, a claim. What a claim's fields and their ends do.
#![tactic(auto)]

ghost use Rattle.std.specs.Prelude.{◌≡◌, ◌+◌, ◌≤◌, ◌<◌};
ghost use Rattle.tables.specs.Tables.{SafeSignatures};
ghost use Rattle.declarations.specs.Fields.{FieldC};
ghost use Rattle.declarations.specs.Ends.{ClosesP, Laid, owing_with, ClosesC};

use forms::Form;
use tables::{Claims, Fault, Kind, Opened, PredicateSet, Signature, Signatures, State};

/// A field of a `C` line: a number of the claim.
pub fn field_claim(
    index: usize,
    field: &[u8],
    row: &mut [i16; 9],
    many: usize,
) -> Result<usize, Fault>
    requires { index < 9 }
    ensures { FieldC index field.now many row.old result row.new }
{
    let number = numbers::read_integer(field, 9999).ok_or(Fault::Number)?;
    row[index] = number as i16;
    Ok(many)
}

/// The end of a `P` line: the predicate is put after the others. The count of claims at its place stays.
pub fn close_predicate(o: Opened, state: State, signatures: &mut Signatures) -> Result<State, Fault>
    ensures { ClosesP o state signatures.old result signatures.new }
{
    let known = state.predicates;
    if signatures.len() <= known {
        return Err(Fault::CountLimit);
    }
    signatures[known] = Signature {
        claims: signatures[known].claims,
        ..o.signature
    };
    Ok(State {
        predicates: known + 1,
        ..state
    })
}

/// Lays a claim's numbers into the table, zeros after the last.
fn lay(claims: &mut Claims, at: usize, row: &[i16; 9], arity: usize)
    requires { at + 9 ≤ 4608 }
    ensures { Laid claims.old at row.now arity claims.new }
{
    for i in 0..9 {
        claims[at + i] = if i <= arity { row[i] } else { 0 };
    }
}

/// The predicates that owe a rule, with one claim more: its predicate is among them unless it is given.
fn owing_with(owing: PredicateSet, place: usize, kind: Kind) -> PredicateSet
    requires { place < 32 }
    ensures { result ≡ owing_with owing place kind }
{
    match kind {
        Kind::Given => owing,
        Kind::Ruled => tables::with_predicate(owing, place),
    }
}

/// The end of a `C` line: the claim is put after the others on its predicate.
#[tactic(auto, using(crate::proofs::Laying::claim_refused, crate::proofs::Laying::claim_added))]
pub fn close_claim(
    o: Opened,
    state: State,
    row: &[i16; 9],
    signatures: &mut Signatures,
    claims: &mut Claims,
) -> Result<State, Fault>
    requires { (o.predicate < 32) × SafeSignatures signatures.old }
    ensures { ClosesC o state row.now signatures.old claims.old result signatures.new claims.new }
{
    let p = o.predicate;
    let signature = signatures[p];
    let count = signature.claims as usize;
    if Form::CLAIMS <= count {
        return Err(Fault::CountLimit);
    }
    lay(
        claims,
        tables::claim_place(p, count),
        row,
        signature.arity as usize,
    );
    signatures[p].claims += 1;
    Ok(State {
        claimed: true,
        owing: owing_with(state.owing, p, signature.kind),
        ..state
    })
}
