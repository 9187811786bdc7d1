// The gatherer as one record that is lent to be changed.
ghost use Rattle.std.specs.Prelude.{◌≡◌, length};
ghost use Rattle.gather_core.specs.Gather.{row_answer, row_table, page_answer, page_table};
ghost use Rattle.gather.specs.Records.{added_answer, row_record, page_record, step_of};

use crate::quick::{Way, goes_in, put_anew, put_on, row_way};
use crate::{gather_page, gather_row};
use gather_core::{Gatherer, put_page};
use model::Refusal;

// An answer, and the record that it leaves: the new one, or the old one where the answer is a refusal.
#[derive(Clone, Copy)]
pub struct Step {
    pub answer: Result<(), Refusal>,
    pub after: Gatherer,
}

// The by-value answer, over the old record. The new record is written over the old one: with an answer built in each arm, the
// compiled code chose between two records in memory, where this one stays in registers.
#[tactic(auto, unfolding(crate::specs::Records::step_of))]
fn taken_apart(old: Gatherer, c: Result<Gatherer, Refusal>) -> Step
    ensures { result ≡ step_of old c }
{
    let mut answer = Ok(());
    let mut after = old;
    match c {
        Ok(next) => {
            after = next;
        }
        Err(refusal) => {
            answer = Err(refusal);
        }
    }
    Step { answer, after }
}

// A row by every test in its order: the answer, and the record that it leaves.
pub fn tested_row(g: Gatherer, table: &mut [u16], row: u64) -> Step
    ensures answered { added_answer result.answer result.after ≡ row_answer g (length table.old) row }
    ensures record_after { result.after ≡ row_record g (length table.old) row }
    ensures table_after { table.new ≡ row_table g table.old row }
{
    taken_apart(g, gather_row(g, table, row))
}

// A page by every test in its order.
pub fn tested_page(g: Gatherer, table: &mut [u16], rows: &[u64]) -> Step
    ensures answered { added_answer result.answer result.after ≡ page_answer g (length table.old) rows.now }
    ensures record_after { result.after ≡ page_record g (length table.old) rows.now }
    ensures table_after { table.new ≡ page_table g table.old rows.now }
{
    taken_apart(g, gather_page(g, table, rows))
}

// The same record again. What is passed on to a call lies in memory; a copy that is made only there leaves the record itself in
// registers. (`&*rows` below does the same for a slice.)
fn copied(g: Gatherer) -> Gatherer
    ensures { result ≡ g }
{
    Gatherer {
        entries: g.entries,
        rows: g.rows,
        first: g.first,
        last: g.last,
    }
}

// One row more, into the lent record and the lent table; or a refusal, and both as they were. What `tested_row` does, with few
// tests for the rows that most rows are: those that go on in the last seed, and those that begin another where there is room.
pub fn add_row(g: &mut Gatherer, table: &mut [u16], row: u64) -> Result<(), Refusal>
    ensures answered { added_answer result g.new ≡ row_answer g.old (length table.old) row }
    ensures record_after { g.new ≡ row_record g.old (length table.old) row }
    ensures table_after { table.new ≡ row_table g.old table.old row }
{
    match row_way(*g, table.len(), row)? {
        Way::On => put_on(g, table, row),
        Way::Anew => put_anew(g, table, row),
    }
    Ok(())
}

// A page, into the lent record and the lent table; or a refusal, and both as they were. What `tested_page` does, with few tests
// for a page behind others, where there is an entry for each of its rows.
pub fn add_page(g: &mut Gatherer, table: &mut [u16], rows: &[u64]) -> Result<(), Refusal>
    ensures answered { added_answer result g.new ≡ page_answer g.old (length table.old) rows.now }
    ensures record_after { g.new ≡ page_record g.old (length table.old) rows.now }
    ensures table_after { table.new ≡ page_table g.old table.old rows.now }
{
    if goes_in(copied(*g), table.len(), rows) {
        *g = put_page(*g, table, rows);
        return Ok(());
    }
    let s = tested_page(copied(*g), table, &*rows);
    *g = s.after;
    s.answer
}

// `add_row` on a local record.
pub fn lend_row(g: Gatherer, table: &mut [u16], row: u64) -> Step
    ensures answered { added_answer result.answer result.after ≡ row_answer g (length table.old) row }
    ensures record_after { result.after ≡ row_record g (length table.old) row }
    ensures table_after { table.new ≡ row_table g table.old row }
{
    let mut after = g;
    let answer = add_row(&mut after, table, row);
    Step { answer, after }
}

// `add_page` on a local record.
pub fn lend_page(g: Gatherer, table: &mut [u16], rows: &[u64]) -> Step
    ensures answered { added_answer result.answer result.after ≡ page_answer g (length table.old) rows.now }
    ensures record_after { result.after ≡ page_record g (length table.old) rows.now }
    ensures table_after { table.new ≡ page_table g table.old rows.now }
{
    let mut after = g;
    let answer = add_page(&mut after, table, rows);
    Step { answer, after }
}
