// The C interface of gathering: seeds while rows arrive. The record goes by value, or is lent.
ghost use Rattle.std.specs.Prelude.{◌≡◌, length};
ghost use Rattle.gather_core.specs.Gather.{row_answer, row_table, page_answer, page_table};
ghost use Rattle.gather.specs.Records.{added_answer, row_record, page_record};
ghost use Rattle.model.specs.Refusals.{number_in};
ghost use Rattle.pelisafu.specs.Shown.{shown_gathered};

use crate::Gathered;
use gather::{Gatherer, Step};
use model::Refusal;

// ---- from results to numbers and structs

fn number_of(answer: Result<(), Refusal>) -> u8
    ensures { result ≡ number_in answer }
{
    match answer {
        Ok(()) => 0,
        Err(refusal) => refusal.into(),
    }
}

// The record is put together anew: where it was passed on whole, the compiled code moved the answer by bytes from the number on,
// and read them in other pieces than they had just been stored in, which waits.
#[tactic(auto, using(crate::proofs::Numbers::number_is), unfolding(crate::specs::Shown::shown_gathered))]
fn of_step(s: Step) -> Gathered
    ensures { result ≡ shown_gathered (added_answer s.answer s.after) s.after }
{
    let answer = s.answer;
    let after = s.after;
    let record = Gatherer {
        entries: after.entries,
        rows: after.rows,
        first: after.first,
        last: after.last,
    };
    Gathered {
        number: number_of(answer),
        record: record,
    }
}

// ---- by value: a row goes as into a lent record, a page by every test in its order. Were a page to go as into a lent record too,
// the compiled code of that call would have two callers, and each would reach it by a call more

#[unsafe(no_mangle)]
pub extern "C" fn pelisafu_gather_row(g: Gatherer, table: &mut [u16], row: u64) -> Gathered
    ensures value { result ≡ shown_gathered (row_answer g (length table.old) row) (row_record g (length table.old) row) }
    ensures table_after { table.new ≡ row_table g table.old row }
{
    of_step(gather::lend_row(g, table, row))
}

#[unsafe(no_mangle)]
pub extern "C" fn pelisafu_gather_page(g: Gatherer, table: &mut [u16], rows: &[u64]) -> Gathered
    ensures value { result ≡ shown_gathered (page_answer g (length table.old) rows.now) (page_record g (length table.old) rows.now) }
    ensures table_after { table.new ≡ page_table g table.old rows.now }
{
    of_step(gather::tested_page(g, table, rows))
}

// ---- lent: the number of the refusal, or 0

#[unsafe(no_mangle)]
pub extern "C" fn pelisafu_add_row(g: &mut Gatherer, table: &mut [u16], row: u64) -> u8
    ensures value { result ≡ (row_answer g.old (length table.old) row).number }
    ensures g_after { g.new ≡ row_record g.old (length table.old) row }
    ensures table_after { table.new ≡ row_table g.old table.old row }
{
    number_of(gather::add_row(g, table, row))
}

#[unsafe(no_mangle)]
pub extern "C" fn pelisafu_add_page(g: &mut Gatherer, table: &mut [u16], rows: &[u64]) -> u8
    ensures value { result ≡ (page_answer g.old (length table.old) rows.now).number }
    ensures g_after { g.new ≡ page_record g.old (length table.old) rows.now }
    ensures table_after { table.new ≡ page_table g.old table.old rows.now }
{
    number_of(gather::add_page(g, table, rows))
}
