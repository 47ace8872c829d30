// The tests of a query, against the predicates that the tables hold.
#![tactic(auto)]

ghost use Rattle.std.specs.Prelude.{◌≡◌, ◌+◌, ◌≤◌, ◌<◌, length, true, MatchOption};
ghost use Rattle.std.proofs.Math.Option.{some};
ghost use Rattle.theory.specs.Text.{natural};
ghost use Rattle.theory.specs.Reserve.{size_from};
ghost use Rattle.text.specs.Scans.{parts_from};
ghost use Rattle.tables.specs.Tables.{SafeSignatures};
ghost use Rattle.queries.specs.Queries.{size_read, is_unasked, SizesRead, Means, OpensQuery};

use tables::Signatures;
use theory::QueryRefusal;
use words::{ClassTable, Word};

mod query;

pub use query::{Asked, Sizes};

/// A size field: a size, or none where it is `-`.
fn read_size(field: &[u8]) -> Result<Option<u16>, QueryRefusal>
    ensures { result ≡ size_read (size_from field.now) }
{
    if field == b"-".as_slice() {
        return Ok(None);
    }
    let size = numbers::read_natural(field, 65535).ok_or(QueryRefusal::SizeField)?;
    Ok(Some(size as u16))
}

/// Reads a size field for each argument, from a place on.
fn read_sizes(query: &[u8], from: usize, arity: usize) -> Result<Sizes, QueryRefusal>
    requires { (length (parts_from 44 query.now from) ≡ arity) × (arity ≤ 8) }
    ensures { SizesRead query.now from result }
{
    let mut sizes: Sizes = [None; 8];
    let mut at = from;
    for i in 0..arity {
        let stop = reader::field_end(query, at);
        sizes[i] = read_size(&query[at..stop])?;
        at = stop + 1;
    }
    Ok(sizes)
}

/// The place of the asked argument, from 0; none where the field is malformed or there is no such argument.
fn read_asked(field: &[u8], arity: u8) -> Option<usize>
    requires { arity ≤ 8 }
    ensures { MatchOption result (is_unasked arity field.now ≡ true) (λ asked. natural arity field.now ≡ some (asked + 1)) }
{
    let number = numbers::read_natural(field, arity as u32)?;
    if number == 0 {
        return None;
    }
    Some((number - 1) as usize)
}

/// The place of the predicate that a field names, with its arity.
fn named_by(field: &[u8], arity: usize, signatures: &Signatures, known: usize) -> Option<usize>
    requires { known ≤ 32 }
    ensures { Means field.now arity signatures.now known result }
{
    match ClassTable::standard().word_of(field) {
        Word::Name(words) => tables::place(signatures, known, words, arity),
        Word::Variable(_) => None,
        Word::Neither => None,
    }
}

/// The tests of a query, in number order.
pub fn open_query(
    query: &[u8],
    signatures: &Signatures,
    known: usize,
) -> Result<Asked, QueryRefusal>
    requires { (known ≤ 32) × (SafeSignatures signatures.now) }
    ensures { OpensQuery query.now signatures.now known result }
{
    if text::is_unfit(query) {
        return Err(QueryRefusal::UnfitQuery);
    }
    let commas = text::count(query, b',');
    if commas == 0 {
        return Err(QueryRefusal::QueryName);
    }
    let stop = reader::field_end(query, 0);
    let place = named_by(&query[..stop], commas - 1, signatures, known).ok_or(
        QueryRefusal::QueryName,
    )?;
    let arity = signatures[place].arity;
    let from = stop + 1;
    let end = reader::field_end(query, from);
    let asked = read_asked(&query[from..end], arity).ok_or(QueryRefusal::AskedArgument)?;
    let sizes = read_sizes(query, end + 1, arity as usize)?;
    if sizes[asked].is_some() {
        return Err(QueryRefusal::AskedIsKnown);
    }
    Ok(Asked {
        predicate: place,
        arity: arity as usize,
        asked,
        sizes,
    })
}
