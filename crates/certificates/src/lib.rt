// `M` lines: multipliers, the weights that they give, and whether the residual by these justifies the claim.
#![tactic(auto)]

ghost use Rattle.std.specs.Prelude.{◌≡◌, ◌+◌, ◌≤◌, ◌<◌, nat_abs, get_or};
ghost use Rattle.tables.specs.Tables.{slot_at, SafeClaims, NoWeights};
ghost use Rattle.residuals.specs.Sums.{Summable};
ghost use Rattle.certificates.specs.Weights.{RoomFor, Weighs, HeadWeighed};
ghost use Rattle.certificates.specs.Multipliers.{FieldM, ClosesM};

use tables::{Claims, Fault, Rows, Slots, State, Weights};

/// Takes a claim's numbers, times a multiplier, away from the weights of an atom.
fn weigh(m: i32, place: usize, atom: usize, claims: &Claims, weights: &mut Weights)
    requires { (nat_abs m ≤ 9999) × (place + 9 ≤ 4608) × (atom ≤ 8) × (SafeClaims claims.now) × (RoomFor weights.old atom) }
    ensures { Weighs m claims.now place atom weights.old weights.new }
{
    for i in 0..9 {
        weights[atom * 9 + i] -= m * claims[place + i] as i32;
    }
}

/// A field of an `M` line: the multiplier of the claim at this place among those on the rule's subgoals.
#[tactic(auto, using(crate::proofs::MultiplierFields::multiplier_fits, crate::proofs::MultiplierFields::multiplier_magnitude))]
pub fn field_multiplier(
    index: usize,
    field: &[u8],
    many: usize,
    claims: &Claims,
    slots: &Slots,
    weights: &mut Weights,
) -> Result<usize, Fault>
    requires { (index < 128) × ((slot_at slots.now index).place + 9 ≤ 4608) × ((slot_at slots.now index).subgoal < 8) × (SafeClaims claims.now) × (RoomFor weights.old ((slot_at slots.now index).subgoal + 1)) }
    ensures { FieldM index field.now many claims.now slots.now weights.old result weights.new }
{
    let Some(m) = numbers::read_natural(field, 9999) else {
        return Err(Fault::Number);
    };
    if m != 0 {
        let slot = slots[index];
        let (place, atom) = (slot.place as usize, slot.subgoal as usize + 1);
        weigh(m as i32, place, atom, claims, weights);
    }
    Ok(many)
}

/// The head's weights: the numbers of the claim.
fn weigh_head(claims: &Claims, place: usize, weights: &mut Weights)
    requires { (place + 9 ≤ 4608) }
    ensures { HeadWeighed claims.now place weights.old weights.new }
{
    for i in 0..9 {
        weights[i] = claims[place + i] as i32;
    }
}

fn clear_weights(weights: &mut Weights)
    ensures { NoWeights weights.new }
{
    weights.fill(0);
}

/// The end of an `M` line: whether the claim is justified. If it is not, the weights stay, and the residual is theirs.
#[tactic(auto, using(crate::proofs::HeadWeights::head_summable, crate::proofs::HeadWeights::line_refused, crate::proofs::HeadWeights::line_done))]
pub fn close_multipliers(
    state: State,
    claims: &Claims,
    weights: &mut Weights,
    rows: &Rows,
) -> Result<State, Fault>
    requires { (state.head < 32) × (state.multipliers < 16) × (state.subgoals ≤ 8) × (SafeClaims claims.now) × (Summable weights.old rows.now) × (state.multiplier_lines ≤ 1040) }
    ensures { ClosesM state claims.now weights.old rows.now result weights.new }
{
    let place = tables::claim_place(state.head, state.multipliers);
    weigh_head(claims, place, weights);
    let residual = residuals::residual(weights, rows, state.subgoals, state.variables);
    if !residuals::is_justified(residual) {
        return Err(Fault::Unjustified);
    }
    clear_weights(weights);
    Ok(State {
        multipliers: state.multipliers + 1,
        multiplier_lines: state.multiplier_lines + 1,
        ..state
    })
}
