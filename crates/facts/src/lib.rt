// `G` lines: facts that come with the pack. Their fields are an atom's terms; here is what their end does: whether the fact
// is ground, and whether its sizes meet the claims on its predicate.
#![tactic(auto)]

ghost use Rattle.std.specs.Prelude.{◌≡◌, ◌+◌, ◌≤◌, ◌<◌, ◌^◌, nat_abs, pos, ◌+ℤ◌, ◌*ℤ◌};
ghost use Rattle.tables.specs.Tables.{SafeSignatures, SafeClaims};
ghost use Rattle.facts.specs.Ends.{value_to, met_to, ClosesG};

use tables::{Claims, Fault, Opened, Rows, Signatures, State};

/// A sum with one argument more: its number in the claim times its size.
fn with_argument(sum: i64, number: i64, size: u16) -> i64
    requires { (nat_abs sum ≤ 2 ^ 40) × (nat_abs number ≤ 9999) }
    ensures { result ≡ sum +ℤ number *ℤ pos size }
{
    sum + number * size as i64
}

/// What a claim says is at least 0, at the sizes of a fact's arguments: a ground term's size is the constant of its row.
fn value_of(claims: &Claims, place: usize, arity: usize, rows: &Rows) -> i64
    requires { (place + 9 ≤ 4608) × (arity ≤ 8) × (SafeClaims claims.now) }
    ensures { result ≡ value_to claims.now place rows.now arity }
{
    let mut sum = claims[place] as i64;
    for k in 0..arity {
        let number = claims[place + 1 + k] as i64;
        sum = with_argument(sum, number, rows[tables::row_place(0, k)]);
    }
    sum
}

/// Whether a fact meets the claims on its predicate.
fn is_met(claims: &Claims, predicate: usize, count: usize, arity: usize, rows: &Rows) -> bool
    requires { (predicate < 32) × (count ≤ 16) × (arity ≤ 8) × (SafeClaims claims.now) }
    ensures { result ≡ met_to claims.now predicate rows.now arity count }
{
    (0..count).all(|j| value_of(claims, tables::claim_place(predicate, j), arity, rows) >= 0)
}

/// The end of a `G` line. Of the fact only that its predicate has one is kept.
#[tactic(auto, using(crate::proofs::Ends::not_ground_lem, crate::proofs::Ends::few_claims_lem, crate::proofs::Ends::few_arguments, crate::proofs::Ends::claim_unmet, crate::proofs::Ends::fact_done))]
pub fn close_fact(
    o: Opened,
    state: State,
    many: usize,
    signatures: &Signatures,
    claims: &Claims,
    rows: &Rows,
) -> Result<State, Fault>
    requires { (o.predicate < 32) × (SafeSignatures signatures.now) × (SafeClaims claims.now) }
    ensures { ClosesG o state many signatures.now claims.now rows.now result }
{
    if 0 < many {
        return Err(Fault::NotGround);
    }
    let p = o.predicate;
    let arity = signatures[p].arity as usize;
    let count = signatures[p].claims as usize;
    if !is_met(claims, p, count, arity, rows) {
        return Err(Fault::UnmetClaim);
    }
    Ok(State {
        shipped: tables::with_predicate(state.shipped, p),
        ..state
    })
}
