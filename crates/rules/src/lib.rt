// How `H` and `B` lines end, and what they add to a rule: a head, a subgoal with a slot for each claim on its predicate.
#![tactic(auto)]

ghost use Rattle.std.specs.Prelude.{◌≡◌, ◌+◌, ◌*◌, ◌≤◌, ◌<◌};
ghost use Rattle.tables.specs.Tables.{SafeSignatures};
ghost use Rattle.rules.specs.Ends.{is_past, ClosesH, SlotsAdded, ClosesB};

use forms::Form;
use tables::{Fault, Opened, Signatures, Slot, Slots, State};

/// Whether there are as many rules, or subgoals, as there may be, or a rule has more variables than it may.
fn is_past(limit: usize, n: usize, many: usize) -> bool
    ensures { result ≡ is_past limit n many }
{
    (limit <= n) | (Form::VARIABLES < many)
}

/// The end of an `H` line: a rule begins.
#[tactic(auto, using(crate::proofs::Ends::head_refused, crate::proofs::Ends::head_done))]
pub fn close_head(o: Opened, state: State, many: usize) -> Result<State, Fault>
    requires { (state.rules ≤ 64) × (o.predicate < 32) }
    ensures { ClosesH o state many result }
{
    if is_past(64, state.rules, many) {
        return Err(Fault::CountLimit);
    }
    Ok(State {
        rules: state.rules + 1,
        head: o.predicate,
        headed: tables::with_predicate(state.headed, o.predicate),
        subgoals: 0,
        variables: many,
        slots: 0,
        multipliers: 0,
        ..state
    })
}

/// Adds a slot for each claim on a subgoal's predicate.
#[tactic(auto, using(crate::proofs::AddedSlots::slots_more, crate::proofs::AddedSlots::slots_all))]
fn add_slots(slots: &mut Slots, from: usize, predicate: usize, count: usize, subgoal: usize)
    requires { (from + count ≤ 128) × (predicate < 32) × (count ≤ 16) × (subgoal < 8) }
    ensures { SlotsAdded slots.old from predicate count subgoal slots.new }
{
    for j in 0..count {
        let place = tables::claim_place(predicate, j) as u16;
        slots[from + j] = Slot {
            place,
            subgoal: subgoal as u16,
        };
    }
}

/// The end of a `B` line: the subgoal is put after the others, with a slot for each claim on its predicate.
#[tactic(auto, using(crate::proofs::Ends::room_left, crate::proofs::Ends::subgoal_refused, crate::proofs::Ends::subgoal_done))]
pub fn close_subgoal(
    o: Opened,
    state: State,
    many: usize,
    signatures: &Signatures,
    slots: &mut Slots,
) -> Result<State, Fault>
    requires { (o.predicate < 32) × (SafeSignatures signatures.now) × (state.slots ≤ 16 * state.subgoals) }
    ensures { ClosesB o state many signatures.now slots.old result slots.new }
{
    let subgoal = state.subgoals;
    if is_past(8, subgoal, many) {
        return Err(Fault::CountLimit);
    }
    let p = o.predicate;
    let from = state.slots;
    let count = signatures[p].claims as usize;
    add_slots(slots, from, p, count, subgoal);
    Ok(State {
        subgoals: subgoal + 1,
        variables: many,
        slots: from + count,
        ..state
    })
}
