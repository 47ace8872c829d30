// Forms, by value.
#![tactic(auto)]

ghost use Rattle.std.specs.Prelude.{◌≡◌, ◌≤◌, ◌^◌, nat_abs};
ghost use Rattle.forms.specs.Sums.{Within, Zero, Sum, Multiple};

/// A form over the variables of one rule: its constant, then a coefficient for each of them.
#[derive(Clone, Copy)]
pub struct Form {
    pub constant: i64,
    pub coefficients: [i64; 16],
}

impl Form {
    /// The most variables in one rule.
    pub const VARIABLES: usize = 16;
    /// The most claims on one predicate.
    pub const CLAIMS: usize = 16;

    /// Where every sum begins.
    pub fn zero() -> Form
        ensures { Zero result }
    {
        Form {
            constant: 0,
            coefficients: [0; 16],
        }
    }

    pub fn plus(self, other: Form) -> Form
        requires { (Within (2 ^ 61) self) × (Within (2 ^ 61) other) }
        ensures { Sum self other result }
    {
        let a = self.coefficients;
        let b = other.coefficients;
        let mut sums = [0i64; 16];
        for i in 0..16 {
            sums[i] = a[i] + b[i];
        }
        Form {
            constant: self.constant + other.constant,
            coefficients: sums,
        }
    }

    pub fn times(self, k: i64) -> Form
        requires { (Within (2 ^ 24) self) × (nat_abs k ≤ 2 ^ 36) }
        ensures { Multiple self k result }
    {
        let a = self.coefficients;
        let mut products = [0i64; 16];
        for i in 0..16 {
            products[i] = k * a[i];
        }
        Form {
            constant: k * self.constant,
            coefficients: products,
        }
    }
}
