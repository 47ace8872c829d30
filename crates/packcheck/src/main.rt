// The program: reads a pack and queries from standard input and prints check's numbers, then reserve's fields for each
// query. The reply is one function of the input's bytes; `main` only reads and writes.
#![tactic(auto)]

ghost use Rattle.std.specs.Prelude.{◌≡◌, ◌≤◌, length, take};
ghost use Rattle.theory.specs.Text.{Bytes};
ghost use Rattle.theory.specs.Program.{reply};
ghost use Rattle.reservation.specs.Answering.{Ready, PackHeld};
ghost use Rattle.packcheck.specs.Printing.{PutsQueries};

use answers::{Four, Three};
use packs::Loaded;
use std::io;
use std::io::Write;
use tables::Tables;
use text::Lines;
use theory::Refusal;

/// What is printed: the first bytes of a page that has nine for each byte of the largest input, and some. A length stands
/// beside the page, and no `Vec`, since there is no heap.
#[derive(Drop)]
pub struct Printed {
    pub page: [u8; 589888],
    pub length: usize,
}

fn blank_page() -> [u8; 589888] {
    [0u8; 589888]
}

fn input_room() -> [u8; 65537] {
    [0u8; 65537]
}

/// Writes reserve's fields for each query, after what is written already.
fn put_queries(
    queries: &[u8],
    loaded: &Loaded,
    tables: &Tables,
    page: &mut [u8],
    written: usize,
) -> usize
    requires { (length queries.now ≤ 65536) × (written ≤ 24) × (589888 ≤ length page.old) × (Ready loaded.now tables.now) × ((text : Bytes) × PackHeld text loaded.now tables.now) }
    ensures { PutsQueries queries.now loaded.now tables.now page.old written page.new result }
{
    let mut length = written;
    for query in Lines::of(queries) {
        let three = Three::from(reservation::respond(loaded, query, tables));
        length += replies::put_fields(&mut page[length..], three);
    }
    length
}

/// The reply to an input: check's numbers for its pack, reserve's fields for each of its queries. The pack is loaded once.
pub fn reply(input: &[u8]) -> Printed
    ensures { (take result.length result.page ≡ reply input.now) × (result.length ≤ length result.page) }
{
    let mut page = blank_page();
    if 65536 < input.len() {
        let length = replies::put_numbers(&mut page[..], Four::from(Refusal::LongText));
        return Printed { page, length };
    }
    let end = replies::pack_end(input);
    let mut tables = Tables::empty();
    let loaded = packs::load(&input[..end], &mut tables);
    let written = replies::put_numbers(&mut page[..], Four::from(loaded.verdict));
    let length = put_queries(&input[end..], &loaded, &tables, &mut page[..], written);
    Printed { page, length }
}

// Writes a reply. A function of its own, so that `main` keeps no second copy of the page on the stack.
fn print(rt: &HostRuntime, printed: Printed) -> io::Result<()>
    requires { printed.length ≤ length printed.page }
{
    io::writer(rt).write_all(&printed.page[..printed.length])
}

fn main(rt: HostRuntime) -> io::Result<()> {
    let mut input = input_room();
    let n = streams::read_full(&mut rt.reader(), &mut input)?;
    print(&rt, reply(&input[..n]))
}
