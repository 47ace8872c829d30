// What a query without fault asks.

ghost use Rattle.std.specs.Prelude.{◌≤◌, ◌<◌};

/// The size that a query gives for each argument, where it is known.
pub type Sizes = [Option<u16>; 8];

/// What a query asks: its predicate's place, how many arguments that has, the asked argument's place, from 0, and the sizes.
#[derive(Clone, Copy)]
pub struct Asked {
    pub predicate: usize,
    pub arity: usize,
    pub asked: usize,
    pub sizes: Sizes,
    pub ghost low: { (predicate < 32) × (arity ≤ 8) × (asked < 8) },
}
