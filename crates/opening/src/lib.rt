// A line's tests before its fields are read. Lines open in three ways, whatever else they say: with the name of a
// predicate that is new, with that of a declared one, or with no name.
#![tactic(auto)]

ghost use Rattle.std.specs.Prelude.{◌≡◌, true, ℕ, [], ◌∷◌, ◌+◌, ◌≤◌, ◌<◌, length, drop};
ghost use Rattle.theory.specs.declared.Letter.TheVariants.{M, NoLetter};
ghost use Rattle.theory.specs.Lists.{every};
ghost use Rattle.theory.specs.Text.{between, natural, fields_of};
ghost use Rattle.theory.specs.Written.{letter_of, field};
ghost use Rattle.theory.specs.Faults.{line_arity};
ghost use Rattle.text.specs.Scans.{parts_from};
ghost use Rattle.numbers.specs.Numbers.{option_of};
ghost use Rattle.tables.specs.Tables.{SafeState, SafeSignatures, FoundFor};
ghost use Rattle.tables.specs.Sorts.{sort_of};
ghost use Rattle.tables.specs.Lines.{most};
ghost use Rattle.opening.specs.Opening.{declares, bars, barred_by, kind_written, declaration, HasName, Nameless, Begins, LetterRead, NameRead, Completes, Stands, OpensLetter, OpensBare, Opens};

use tables::{Fault, Hints, Kind, Opened, Signature, Signatures, State};
use theory::Letter;
use words::{ClassTable, Word, Words};

/// The letter that a byte is.
fn letter_by(byte: u8) -> Letter
    ensures { result ≡ letter_of (byte ∷ []) }
{
    match byte {
        b'P' => Letter::P,
        b'C' => Letter::C,
        b'G' => Letter::G,
        b'H' => Letter::H,
        b'B' => Letter::B,
        b'M' => Letter::M,
        b'E' => Letter::E,
        _ => Letter::NoLetter,
    }
}

/// The letter that is a line's first field.
fn letter_of(line: &[u8]) -> Letter
    ensures { LetterRead line.now result }
{
    if line.is_empty() {
        return Letter::NoLetter;
    }
    if 1 < line.len() && line[1] != b',' {
        return Letter::NoLetter;
    }
    letter_by(line[0])
}

/// All `M` lines of the rules so far are there.
fn is_complete(state: State, signatures: &Signatures) -> bool
    requires { (SafeSignatures signatures.now) × (state.head < 32) }
    ensures { Completes signatures.now state result }
{
    state.rules == 0 || signatures[state.head].claims as usize <= state.multipliers
}

/// Whether a line of this letter may stand at this point. Three tests by `&&` were tried: the proof then needs the value of the
/// inner one, which has no name to cite.
fn may_stand(letter: Letter, state: State, signatures: &Signatures) -> bool
    requires { (SafeSignatures signatures.now) × (state.head < 32) }
    ensures { Stands letter signatures.now state result }
{
    if state.ended {
        return false;
    }
    match letter {
        Letter::P => !state.claimed & (state.shipped == 0) & (state.rules == 0),
        Letter::C => (state.shipped == 0) & (state.rules == 0),
        Letter::G => state.rules == 0,
        Letter::H => is_complete(state, signatures),
        Letter::B => state.rules != 0 && state.multipliers == 0,
        Letter::M => !is_complete(state, signatures),
        Letter::E => is_complete(state, signatures),
        Letter::NoLetter => false,
    }
}

/// The name in a line's second field: its words, and where the field ends.
#[derive(Clone, Copy)]
pub struct Named {
    pub words: Words,
    pub stop: usize,
}

#[tactic(auto, using(crate::proofs::NameReading::name_none, crate::proofs::NameReading::name_other, crate::proofs::NameReading::name_found))]
fn name_of(line: &[u8], classes: &ClassTable) -> Option<Named>
    requires { Begins line.now }
    ensures { NameRead line.now result }
{
    if line.len() < 2 {
        return None;
    }
    let stop = reader::field_end(line, 2);
    match classes.word_of(&line[2..stop]) {
        Word::Name(words) => Some(Named { words, stop }),
        Word::Variable(_) | Word::Neither => None,
    }
}

/// The arity in the field from a place on; none where there is no such field or it is malformed.
fn read_arity(line: &[u8], from: usize) -> Option<usize>
    ensures { option_of result ≡ natural 8 (field 0 (parts_from 44 line.now from)) }
{
    if line.len() < from {
        return None;
    }
    let stop = reader::field_end(line, from);
    let arity = numbers::read_natural(&line[from..stop], 8)?;
    Some(arity as usize)
}

/// The kind that a field writes.
#[tactic(auto, using(crate::proofs::WrittenKinds::none_long, crate::proofs::WrittenKinds::given_is, crate::proofs::WrittenKinds::ruled_is, crate::proofs::WrittenKinds::neither_is))]
fn kind_of(field: &[u8]) -> Option<Kind>
    ensures { result ≡ kind_written field.now }
{
    if field.len() != 1 {
        return None;
    }
    match field[0] {
        b'G' => Some(Kind::Given),
        b'R' => Some(Kind::Ruled),
        _ => None,
    }
}

/// The kind in the field after the one from a place on.
#[tactic(auto, using(crate::proofs::WrittenKinds::kind_past, crate::proofs::WrittenKinds::kind_missing, crate::proofs::WrittenKinds::kind_there))]
fn read_kind(line: &[u8], from: usize) -> Option<Kind>
    ensures { result ≡ kind_written (field 1 (parts_from 44 line.now from)) }
{
    if line.len() < from {
        return None;
    }
    let after = reader::field_end(line, from) + 1;
    if line.len() < after {
        return None;
    }
    let stop = reader::field_end(line, after);
    kind_of(&line[after..stop])
}

/// The arity that a line gives, by its commas or in the field from a place on, the one after its name.
fn arity_of(letter: Letter, line: &[u8], from: usize, commas: usize) -> Option<usize>
    requires { (commas + 1 ≡ length (fields_of line.now)) × (parts_from 44 line.now from ≡ drop 2 (fields_of line.now)) }
    ensures { option_of result ≡ line_arity letter (fields_of line.now) }
{
    match letter {
        Letter::P => read_arity(line, from),
        Letter::C => commas.checked_sub(2),
        Letter::G | Letter::H | Letter::B => commas.checked_sub(1),
        Letter::M | Letter::E | Letter::NoLetter => None,
    }
}

/// The place of the predicate that a line names, with the arity that it gives, among the declared ones.
fn place_of(
    signatures: &Signatures,
    known: usize,
    words: Words,
    arity: Option<usize>,
    hints: &mut Hints,
) -> Option<usize>
    requires { known ≤ 32 }
    ensures { FoundFor signatures.now known words (option_of arity) result }
{
    tables::place_by(signatures, known, words, arity?, hints)
}

/// Whether a line of this letter declares the predicate that it names; the others refer to one.
fn is_declaration(letter: Letter) -> bool
    ensures { result ≡ declares letter }
{
    letter == Letter::P
}

/// Whether a line of this letter may not name a declared predicate of this kind.
fn is_barred(letter: Letter, kind: Kind) -> bool
    ensures { result ≡ bars letter kind }
{
    match letter {
        Letter::P => true,
        Letter::G => kind == Kind::Ruled,
        Letter::H => kind == Kind::Given,
        Letter::C | Letter::B | Letter::M | Letter::E | Letter::NoLetter => false,
    }
}

/// What is wrong with a line of this letter that names a predicate which it may not name.
fn barred_fault(letter: Letter) -> Fault
    ensures { result ≡ barred_by letter }
{
    match letter {
        Letter::G => Fault::RuledFact,
        _ => Fault::Declaration,
    }
}

/// A line that declares a predicate, where none is declared under its name and arity: its count of fields, its arity and its
/// kind. No field is left to be read one by one.
fn open_declaration(
    line: &[u8],
    known: usize,
    words: Words,
    from: usize,
    commas: usize,
    arity: Option<usize>,
) -> Result<Opened, Fault>
    requires { (length line.now ≤ 1024) × ((n : ℕ) → arity ≡ Some n → n ≤ 8) }
    ensures { result ≡ declaration line.now known words from commas (option_of arity) }
{
    if commas != 3 {
        return Err(Fault::FieldCount);
    }
    let arity = arity.ok_or(Fault::Number)?;
    let kind = read_kind(line, from).ok_or(Fault::Number)?;
    Ok(Opened {
        letter: Letter::P,
        predicate: known,
        signature: Signature {
            words,
            kind,
            arity: arity as u8,
            claims: 0,
        },
        from: line.len() + 1,
    })
}

/// A line of a letter that names a predicate.
fn open_named(
    letter: Letter,
    line: &[u8],
    state: State,
    signatures: &Signatures,
    hints: &mut Hints,
    classes: &ClassTable,
) -> Result<Opened, Fault>
    requires { (HasName letter) × (Begins line.now) × (length line.now ≤ 1024) × (SafeState state) × (SafeSignatures signatures.now) }
    ensures { OpensLetter letter line.now signatures.now state result }
{
    let name = name_of(line, classes).ok_or(Fault::Name)?;
    let known = state.predicates;
    let from = name.stop + 1;
    let commas = text::count(line, b',');
    let arity = arity_of(letter, line, from, commas);
    let Some(place) = place_of(signatures, known, name.words, arity, hints) else {
        if !is_declaration(letter) {
            return Err(Fault::Declaration);
        }
        return open_declaration(line, known, name.words, from, commas, arity);
    };
    if is_barred(letter, signatures[place].kind) {
        return Err(barred_fault(letter));
    }
    Ok(Opened {
        letter,
        predicate: place,
        signature: tables::NO_SIGNATURE,
        from,
    })
}

/// A line of a letter that names no predicate, with a number of commas.
fn open_bare(letter: Letter, commas: usize, line: &[u8], state: State) -> Result<Opened, Fault>
    requires { (Nameless letter) × (commas ≡ most (sort_of letter) state) × (Begins line.now) × (length line.now ≤ 1024) × (letter ≡ M → state.multipliers < 16) }
    ensures { OpensBare letter line.now state result }
{
    if text::count(line, b',') != commas {
        return Err(Fault::FieldCount);
    }
    Ok(Opened {
        letter,
        predicate: 0,
        signature: tables::NO_SIGNATURE,
        from: 2,
    })
}

/// A line of a letter that may stand here.
fn open_letter(
    letter: Letter,
    line: &[u8],
    state: State,
    signatures: &Signatures,
    hints: &mut Hints,
    classes: &ClassTable,
) -> Result<Opened, Fault>
    requires { (letter ≡ NoLetter → ⊥) × (Begins line.now) × (length line.now ≤ 1024) × (SafeState state) × (SafeSignatures signatures.now) × (letter ≡ M → state.multipliers < 16) }
    ensures { OpensLetter letter line.now signatures.now state result }
{
    match letter {
        Letter::P | Letter::C | Letter::G | Letter::H | Letter::B => {
            open_named(letter, line, state, signatures, hints, classes)
        }
        Letter::M => open_bare(letter, state.slots, line, state),
        Letter::E => open_bare(letter, 0, line, state),
        Letter::NoLetter => Err(Fault::Letter),
    }
}

/// A line's tests before its fields are read. Of a text that is plain, the bytes of its lines are known to be fit.
pub fn open(
    line: &[u8],
    state: State,
    signatures: &Signatures,
    hints: &mut Hints,
    classes: &ClassTable,
    plain: bool,
) -> Result<Opened, Fault>
    requires { (SafeSignatures signatures.now) × (SafeState state) × (plain ≡ true → every (between 32 126) line.now ≡ true) }
    ensures { Opens line.now signatures.now state result }
{
    if text::is_unfit_in(line, plain) {
        return Err(Fault::UnfitLine);
    }
    let letter = letter_of(line);
    if !may_stand(letter, state, signatures) {
        return Err(Fault::Letter);
    }
    open_letter(letter, line, state, signatures, hints, classes)
}
