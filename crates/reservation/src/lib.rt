// Reserve: a query answered from the tables that a pack is loaded into.
#![tactic(auto)]

ghost use Rattle.std.specs.Prelude.{◌≡◌, ◌≤◌};
ghost use Rattle.theory.specs.Check.{refusal_of};
ghost use Rattle.theory.specs.Reserve.{reserve_of};
ghost use Rattle.theory.specs.Answers.{reserved_fields, passed_on};
ghost use Rattle.tables.specs.Tables.{SafeSignatures, SafeClaims};
ghost use Rattle.reservation.specs.Answering.{Answers, Ready, Responds};

use packs::Loaded;
use tables::Tables;
use theory::Reservation;

/// Answers a query on an accepted pack that the tables hold.
pub fn answer(query: &[u8], tables: &Tables, known: usize) -> Reservation
    requires { (known ≤ 32) × (SafeSignatures tables.now.signatures) × (SafeClaims tables.now.claims) }
    ensures { Answers query.now tables.now known result }
{
    match queries::open_query(query, &tables.signatures, known) {
        Ok(asked) => {
            let count = tables.signatures[asked.predicate].claims as usize;
            bounds::reserve_by(&tables.claims, count, &asked)
        }
        Err(refusal) => Reservation::QueryRefused(refusal),
    }
}

/// Answers a query by a pack that is loaded into the tables: the pack's refusal, or the query's, or what the claims give.
#[tactic(auto, using(crate::proofs::QueryAnswers::refused_pack))]
pub fn respond(loaded: &Loaded, query: &[u8], tables: &Tables) -> Reservation
    requires { Ready loaded.now tables.now }
    ensures { Responds loaded.now query.now tables.now result }
{
    match loaded.verdict {
        Ok(_) => answer(query, tables, loaded.state.predicates),
        Err(refusal) => Reservation::PackRefused(refusal),
    }
}

/// Reserves by a pack and a query: the pack's refusal with all of check's numbers, the query's, or what the claims give.
pub fn reserve(text: &[u8], query: &[u8]) -> Reservation
    ensures result_value { reserved_fields result ≡ reserve_of text.now query.now }
    ensures passes { passed_on result ≡ refusal_of text.now }
{
    let mut tables = Tables::empty();
    let loaded = packs::load(text, &mut tables);
    respond(&loaded, query, &tables)
}
