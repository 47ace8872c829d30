// The reservation that the claims on one predicate give.
#![tactic(auto)]

ghost use Rattle.std.specs.Prelude.{◌≡◌, ◌+◌, ◌≤◌, ℤ, nat_abs};
ghost use Rattle.tables.specs.Tables.{SafeClaims};
ghost use Rattle.bounds.specs.Bounds.{share, Weighs, Uses, better_of, ReservesBy};

use queries::Asked;
use tables::Claims;
use theory::{Bound, Reservation};

/// What an argument adds to the numerator: its size times the claim's number, or nothing where the size is unknown. None where
/// it is unknown and the number above 0, which rules the claim out.
fn share_of(number: i64, size: Option<u16>) -> Option<i64>
    requires { nat_abs number ≤ 9999 }
    ensures is { result ≡ share number size }
    ensures small { (z : ℤ) → result ≡ Some z → nat_abs z ≤ 655294464 }
{
    match size {
        Some(size) => Some(number * size as i64),
        None => {
            if 0 < number {
                return None;
            }
            Some(0)
        }
    }
}

/// A claim's numerator, or none where an unknown argument rules the claim out.
fn weigh(claims: &Claims, place: usize, query: &Asked) -> Option<i64>
    requires { (place + 9 ≤ 4608) × (SafeClaims claims.now) }
    ensures { Weighs claims.now place query.now result }
{
    let mut numerator = claims[place] as i64;
    for k in 0..query.arity {
        let number = claims[place + 1 + k] as i64;
        numerator += share_of(number, query.sizes[k])?;
    }
    Some(numerator)
}

/// What a usable claim says: that no fact is possible, or a bound.
#[derive(Clone, Copy)]
pub enum Use {
    Impossible,
    AtMost(u64),
}

/// What comes of a claim: none where it is not usable.
fn use_claim(claims: &Claims, place: usize, query: &Asked) -> Option<Use>
    requires { (place + 9 ≤ 4608) × (SafeClaims claims.now) }
    ensures { Uses claims.now place query.now result }
{
    let number = claims[place + 1 + query.asked] as i64;
    if 0 <= number {
        return None;
    }
    let numerator = weigh(claims, place, query)?;
    if numerator < 0 {
        return Some(Use::Impossible);
    }
    Some(Use::AtMost(numerator as u64 / (0 - number) as u64))
}

/// The smaller bound, the first of equal ones.
fn better(best: Option<Bound>, next: Bound) -> Bound
    ensures { result ≡ better_of best next }
{
    match best {
        Some(bound) => {
            if next.size < bound.size {
                return next;
            }
            bound
        }
        None => next,
    }
}

/// The reservation that the claims on the query's predicate give, so many of them.
pub fn reserve_by(claims: &Claims, count: usize, query: &Asked) -> Reservation
    requires { (count ≤ 16) × (SafeClaims claims.now) }
    ensures { ReservesBy claims.now count query.now result }
{
    let mut best: Option<Bound> = None;
    for i in 0..count {
        let place = tables::claim_place(query.predicate, i);
        let claim = (i + 1) as u8;
        match use_claim(claims, place, query) {
            Some(Use::Impossible) => return Reservation::Impossible(claim),
            Some(Use::AtMost(size)) => best = Some(better(best, Bound { size, claim })),
            None => {}
        }
    }
    match best {
        Some(bound) => Reservation::Bounded(bound),
        None => Reservation::NoBound,
    }
}
