// The tokens of a clause text, one after another from a place on.
#![tactic(auto)]

ghost use Rattle.std.specs.Prelude.{◌≡◌, not, ◌+◌, ◌≤◌, ◌<◌, length, get_or, drop};
ghost use Rattle.clause_theory.specs.ClauseTokens.{is_layout, is_neck, is_stop, sign_of};
ghost use Rattle.words.specs.Classes.{class_of, EndsWord};
ghost use Rattle.clause_tokens.specs.NextTokens.{LayoutEnds, Sign, sign_more, RunSeen, NextToken};

use words::{Class, ClassTable};

/// What a token is.
#[derive(Clone, Copy, PartialEq, Eq)]
pub enum Mark {
    Name,
    Variable,
    Lone,
    Opens,
    Closes,
    Comma,
    Neck,
    Stop,
    Stray,
}

/// A token: what it is, where it starts, and the place after it.
#[derive(Clone, Copy)]
pub struct Token {
    pub mark: Mark,
    pub start: usize,
    pub end: usize,
}

fn is_layout(b: u8) -> bool
    ensures { result ≡ is_layout b }
{
    (b == b' ') | (b == b'\n')
}

/// The first place at or after `from` where no layout stands, or the length.
pub fn layout_end(text: &[u8], from: usize) -> usize
    requires { from ≤ length text.now }
    ensures { LayoutEnds text.now from result }
{
    for at in from..text.len() {
        if !is_layout(text[at]) {
            return at;
        }
    }
    text.len()
}

/// What a run of the bytes that a name has is, by the class of its first byte.
fn run_mark(text: &[u8], start: usize, end: usize, class: Class) -> Mark
    requires { (start < length text.now) × (class ≡ class_of (get_or text.now start 0)) × (class ≡ Class.Outside → ⊥) × EndsWord text.now (start + 1) end }
    ensures { RunSeen text.now start end result }
{
    match class {
        Class::Small => Mark::Name,
        Class::Capital => Mark::Variable,
        Class::Inner | Class::Outside => {
            if (text[start] == b'_') & (end == start + 1) {
                Mark::Lone
            } else {
                Mark::Stray
            }
        }
    }
}

/// Whether `:-` stands at a place.
fn is_neck(text: &[u8], at: usize) -> bool
    requires { at < length text.now }
    ensures { result ≡ is_neck (get_or text.now at 0) (drop (at + 1) text.now) }
{
    if text[at] != b':' {
        return false;
    }
    if at + 1 < text.len() {
        text[at + 1] == b'-'
    } else {
        false
    }
}

/// Whether a `.` stands at a place, with layout or nothing after it.
fn is_stop(text: &[u8], at: usize) -> bool
    requires { at < length text.now }
    ensures { result ≡ is_stop (get_or text.now at 0) (drop (at + 1) text.now) }
{
    if text[at] != b'.' {
        return false;
    }
    if at + 1 < text.len() {
        is_layout(text[at + 1])
    } else {
        true
    }
}

/// What a token is that begins with a byte of no name.
fn sign(text: &[u8], at: usize, tight: bool) -> Mark
    requires { at < length text.now }
    ensures { Sign result (sign_of (not tight) (get_or text.now at 0) (drop (at + 1) text.now)) }
{
    let b = text[at];
    if (b == b'(') & tight {
        return Mark::Opens;
    }
    if b == b')' {
        return Mark::Closes;
    }
    if b == b',' {
        return Mark::Comma;
    }
    if is_neck(text, at) {
        return Mark::Neck;
    }
    if is_stop(text, at) {
        return Mark::Stop;
    }
    Mark::Stray
}

/// The place after a token that begins with a byte of no name.
fn sign_end(text: &[u8], at: usize) -> usize
    requires { at < length text.now }
    ensures { result ≡ at + 1 + sign_more (get_or text.now at 0) (drop (at + 1) text.now) }
{
    if is_neck(text, at) { at + 2 } else { at + 1 }
}

/// The token that starts at or after a place, where the one before it ends. `None`: only layout stands up to the end.
pub fn next(text: &[u8], from: usize, classes: &ClassTable) -> Option<Token>
    requires { from ≤ length text.now }
    ensures { NextToken text.now from result }
{
    let start = layout_end(text, from);
    if text.len() <= start {
        return None;
    }
    let class = classes.class_of(text[start]);
    if class == Class::Outside {
        return Some(Token {
            mark: sign(text, start, start == from),
            start,
            end: sign_end(text, start),
        });
    }
    let end = classes.word_end(text, start + 1);
    Some(Token {
        mark: run_mark(text, start, end, class),
        start,
        end,
    })
}
