// The rows of a rule's arguments, each times its weight, as a form: the residual, and whether all of its numbers are at
// least 0.
#![tactic(auto)]

ghost use Rattle.std.specs.Prelude.{◌+◌, ◌≤◌, ◌<◌, ◌^◌, nat_abs};
ghost use Rattle.forms.specs.Sums.{Within};
ghost use Rattle.residuals.specs.Sums.{width, Summable, FormAt, WithRow, WithConstant, Partial, SumsTo, Judged};

use forms::Form;
use tables::{Rows, Weights};

/// A row of the table as a form, by its first counts.
fn form_at(rows: &Rows, base: usize, width: usize) -> Form
    requires { (base + 17 ≤ 1224) × (width ≤ 16) }
    ensures { FormAt rows.now width base result }
{
    let mut coefficients = [0i64; 16];
    for i in 0..width {
        coefficients[i] = rows[base + 1 + i] as i64;
    }
    Form {
        constant: rows[base] as i64,
        coefficients,
    }
}

/// A form with a row of the table added, times its weight, in a rule of so many variables. Most rules have at most eight, for
/// which half of a row is looked at.
#[tactic(auto, using(crate::proofs::Rows::narrow_added))]
fn with_row(form: Form, rows: &Rows, base: usize, weight: i64, variables: usize) -> Form
    requires { (base + 17 ≤ 1224) × (Within (2 ^ 61) form) × (nat_abs weight ≤ 2 ^ 36) }
    ensures { WithRow form rows.now (width variables) base weight result }
{
    if variables <= 8 {
        return form.plus(form_at(rows, base, 8).times(weight));
    }
    form.plus(form_at(rows, base, Form::VARIABLES).times(weight))
}

fn with_constant(form: Form, c: i64) -> Form
    requires { (nat_abs form.constant < 2 ^ 60) × (nat_abs c < 2 ^ 60) }
    ensures { WithConstant form c result }
{
    Form {
        constant: form.constant + c,
        ..form
    }
}

/// A form with an atom's arguments added, each times its weight, and the atom's weight for the constant.
fn with_atom(sum: Form, weights: &Weights, rows: &Rows, atom: usize, variables: usize) -> Form
    requires { (atom ≤ 8) × (Summable weights.now rows.now) × (Partial weights.now rows.now (width variables) atom sum) }
    ensures { Partial weights.now rows.now (width variables) (atom + 1) result }
{
    let mut form = with_constant(sum, weights[atom * 9] as i64);
    for k in 0..8 {
        let weight = weights[atom * 9 + 1 + k];
        if weight != 0 {
            let base = tables::row_place(atom, k);
            form = with_row(form, rows, base, weight as i64, variables);
        }
    }
    form
}

/// The residual by the weights that are there: the head's and the subgoals' arguments, each times its weight, in a rule of so
/// many variables.
#[tactic(auto, using(crate::proofs::Sums::no_atoms_lem))]
pub fn residual(weights: &Weights, rows: &Rows, subgoals: usize, variables: usize) -> Form
    requires { (subgoals ≤ 8) × (Summable weights.now rows.now) }
    ensures { SumsTo weights.now rows.now (width variables) (subgoals + 1) result }
{
    let mut form = Form::zero();
    for atom in 0..=subgoals {
        form = with_atom(form, weights, rows, atom, variables);
    }
    form
}

/// Whether no number of a form is below 0.
pub fn is_justified(form: Form) -> bool
    ensures { Judged form result }
{
    form.constant >= 0 && form.coefficients.iter().all(|c| *c >= 0)
}
