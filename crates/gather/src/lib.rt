// Gathering: the ends of seeds, written into a lent table, with a small record of where gathering stands.

#![tactic(auto)]

ghost use Rattle.std.specs.Prelude.{◌≡◌, length};
ghost use Rattle.model.specs.Refusals.{answer_of};
ghost use Rattle.gather_core.specs.Gather.{values_of, row_answer, row_table, page_answer, page_table};

mod lent;
mod quick;

pub use gather_core::{Gatherer, rises};
use gather_core::{impossible, page_fits, put_page, put_row, row_fits};
pub use lent::{Step, add_page, add_row, lend_page, lend_row, tested_page, tested_row};
pub use model::Refusal;

// One row more: the record with it in, and its seed's end in the table; or a refusal, and the table as it was.
pub fn gather_row(g: Gatherer, table: &mut [u16], row: u64) -> Result<Gatherer, Refusal>
    ensures { (answer_of values_of result ≡ row_answer g (length table.old) row) × (table.new ≡ row_table g table.old row) }
{
    row_fits(g, table.len(), row)?;
    Ok(put_row(g, table, row))
}

// A page: the record with it in, and its seeds' ends in the table; or a refusal, and the table as it was.
pub fn gather_page(g: Gatherer, table: &mut [u16], rows: &[u64]) -> Result<Gatherer, Refusal>
    ensures { (answer_of values_of result ≡ page_answer g (length table.old) rows.now) × (table.new ≡ page_table g table.old rows.now) }
{
    if rows.is_empty() {
        return if impossible(g, table.len()) {
            Err(Refusal::Record)
        } else {
            Ok(g)
        };
    }
    page_fits(g, table.len(), rows)?;
    Ok(put_page(g, table, rows))
}
