// The tokens of a field, read once: whether it is a term, the arities of its symbols, and where its variables stand.
#![tactic(auto)]

ghost use Rattle.std.specs.Prelude.{◌≡◌, false, ◌+◌, ◌-◌, ◌*◌, ◌≤◌, ◌<◌, length, get_or, replicate};
ghost use Rattle.theory.specs.Text.{is_digit};
ghost use Rattle.words.specs.Classes.{class_of};
ghost use Rattle.groundwork.proofs.Truth.{Decides};
ghost use Rattle.tokens.specs.TokenRows.{EndsAt, ArityAt, TokensRead, start_of, end_of};

use words::{Class, ClassTable};

/// Whether a token may end at a place: a space or nothing stands there.
fn is_end(field: &[u8], at: usize) -> bool
    requires { at ≤ length field.now }
    ensures { Decides result (EndsAt field.now at) }
{
    matches!(&field[at..], [] | [b' ', ..])
}

/// Whether `/`, a digit and the end of a token stand at a place. Of most tokens three bytes tell it, since another comes after.
fn has_arity(field: &[u8], at: usize) -> bool
    requires { at ≤ length field.now }
    ensures { Decides result (ArityAt field.now at) }
{
    matches!(
        &field[at..],
        [b'/', b'0'..=b'9', b' ', ..] | [b'/', b'0'..=b'9']
    )
}

/// The number that a digit writes.
fn digit_of(digit: u8) -> u8
    requires { 48 ≤ digit }
    ensures { result ≡ digit - 48 }
{
    digit - b'0'
}

// The place of a variable: 16 times where it starts in the field, and one less than its length. Fields have at most 1024
// bytes, and variables at most 16.

/// A variable's place, by its start and its end.
fn place_of(start: usize, end: usize) -> u16
    requires { (start < 1024) × (start < end) × (end ≤ start + 16) }
    ensures { result ≡ start * 16 + (end - start - 1) }
{
    (start * 16 + (end - start - 1)) as u16
}

/// Where the variable at a place starts.
pub fn start_of(place: u16) -> usize
    ensures { result ≡ start_of place }
{
    (place / 16) as usize
}

/// Where it ends.
pub fn end_of(place: u16) -> usize
    ensures { result ≡ end_of place }
{
    (place / 16 + place % 16 + 1) as usize
}

/// What was read of a field that is a term: how many symbols and variables.
#[derive(Clone, Copy)]
pub struct Tokens {
    pub symbols: usize,
    pub variables: usize,
}

/// Room for what the tokens of a field say: the arities of its symbols, and the places of its variables.
#[derive(Clone, Copy)]
pub struct TokenRoom {
    pub arities: [u8; 512],
    pub places: [u16; 512],
}

impl TokenRoom {
    /// Room with zeros in it.
    pub fn empty() -> TokenRoom
        ensures { (result.arities ≡ replicate 512 0) × (result.places ≡ replicate 512 0) }
    {
        TokenRoom {
            arities: [0; 512],
            places: [0; 512],
        }
    }
}

/// Reads the tokens of a field, if it is a term: each token in turn fills one place and opens as many as its arity, and none is
/// left at the end. Of a term, the room's `arities` then begin with the arities of its symbols, and `places` with the places of
/// its variables. A word's end is looked for in two places, one for each kind of token: the loops are then predicted better.
pub fn read_tokens(field: &[u8], classes: &ClassTable, room: &mut TokenRoom) -> Option<Tokens>
    requires { length field.now ≤ 1024 }
    ensures { TokensRead field.now result room.new }
{
    let mut wanted: usize = 1;
    let mut symbols: usize = 0;
    let mut variables: usize = 0;
    let mut from: usize = 0;
    // no `for`: each turn goes on by a whole token
    while from < field.len() {
        if wanted == 0 {
            return None;
        }
        match classes.class_of(field[from]) {
            Class::Small => {
                let end = classes.word_end(field, from + 1);
                if 16 < end - from || !has_arity(field, end) {
                    return None;
                }
                let arity = digit_of(field[end + 1]);
                room.arities[symbols] = arity;
                symbols += 1;
                wanted = wanted - 1 + arity as usize;
                from = end + 3;
            }
            Class::Capital => {
                let end = classes.word_end(field, from + 1);
                if 16 < end - from || !is_end(field, end) {
                    return None;
                }
                room.places[variables] = place_of(from, end);
                variables += 1;
                wanted -= 1;
                from = end + 1;
            }
            Class::Inner | Class::Outside => return None,
        }
    }
    if wanted == 0 && field.len() < from {
        Some(Tokens { symbols, variables })
    } else {
        None
    }
}

/// As `read_tokens`, of a field that begins with a capital: it is one variable or no term.
fn read_variable(field: &[u8], classes: &ClassTable, room: &mut TokenRoom) -> Option<Tokens>
    requires { (0 < length field.now) × (length field.now ≤ 1024) × (class_of (get_or field.now 0 0) ≡ Class.Capital) }
    ensures { TokensRead field.now result room.new }
{
    let end = classes.word_end(field, 1);
    if end < field.len() {
        return None;
    }
    if 16 < end {
        return None;
    }
    room.places[0] = place_of(0, end);
    Some(Tokens {
        symbols: 0,
        variables: 1,
    })
}

/// As `read_tokens`, of an argument of an atom: most are one variable.
pub fn read_argument(field: &[u8], classes: &ClassTable, room: &mut TokenRoom) -> Option<Tokens>
    requires { length field.now ≤ 1024 }
    ensures { TokensRead field.now result room.new }
{
    let [first, ..] = field else {
        return None;
    };
    if classes.class_of(*first) == Class::Capital {
        return read_variable(field, classes, room);
    }
    read_tokens(field, classes, room)
}
