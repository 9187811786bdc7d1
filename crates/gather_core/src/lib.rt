// What the gatherer does with its record and the lent table. The public calls over it are those of `gather`.

#![tactic(auto)]

ghost use Rattle.std.specs.Prelude.{◌≡◌, ◌+◌, ◌≤◌, length, nat_lt};
ghost use Rattle.model.specs.Refusals.{number_in};
ghost use Rattle.gather_core.specs.Gather.{impossible, above, early, late, joins, added, added_to, row_number, Counted};

mod paging;
mod rising;

use model::Refusal;
pub use paging::{page_fits, put_page};
pub use rising::{rises, rises_closely};

// Entries of the table in use, rows gathered, first row of the last seed, last row. Hosts lend it, so its layout is C's.
#[repr(C)]
#[derive(Clone, Copy)]
pub struct Gatherer {
    pub entries: usize,
    pub rows: usize,
    pub first: u64,
    pub last: u64,
}

// Test 12.
#[tactic(auto, unfolding(crate::specs::Gather::impossible, model::specs::Tests::pick))]
pub fn impossible(g: Gatherer, room: usize) -> bool
    ensures { result ≡ impossible g room }
{
    room < g.entries || g.rows < g.entries || g.rows != 0 && (g.entries == 0 || g.last < g.first)
}

// Whether a row is above the last row, if any.
#[tactic(auto, unfolding(crate::specs::Gather::above, model::specs::Tests::pick))]
pub fn above(g: Gatherer, row: u64) -> bool
    ensures { result ≡ above g row }
{
    g.rows == 0 || g.last < row
}

// Whether n rows more would make more than 65,535.
pub fn too_many(g: Gatherer, n: usize) -> bool
    ensures { result ≡ nat_lt 65535 (g.rows + n) }
{
    65535 < g.rows.saturating_add(n)
}

// Tests 12, 3 and 2, in that order.
#[tactic(auto, unfolding(crate::specs::Gather::early, model::specs::Tests::pick))]
pub fn early(g: Gatherer, room: usize, rising: bool, n: usize) -> Result<(), Refusal>
    ensures { number_in result ≡ early g room rising n }
{
    if impossible(g, room) {
        return Err(Refusal::Record);
    }
    if !rising {
        return Err(Refusal::Order);
    }
    if too_many(g, n) {
        return Err(Refusal::RowCount);
    }
    Ok(())
}

// Test 11.
#[tactic(auto, unfolding(crate::specs::Gather::late, model::specs::Tests::pick))]
fn late(after: Gatherer, room: usize) -> Result<(), Refusal>
    ensures { number_in result ≡ late after room }
{
    if room < after.entries {
        Err(Refusal::Table)
    } else {
        Ok(())
    }
}

// Whether a row joins the last seed.
#[tactic(auto, unfolding(crate::specs::Gather::joins, model::specs::Tests::pick))]
fn joins(g: Gatherer, row: u64) -> bool
    ensures { result ≡ joins g row }
{
    g.rows != 0 && row / 4096 == g.first / 4096
}

// The record with a row in.
#[tactic(auto, unfolding(crate::specs::Gather::added, model::specs::Tests::pick))]
fn added(g: Gatherer, row: u64) -> Gatherer
    requires { Counted g 1 }
    ensures { result ≡ added g row }
{
    let rows = g.rows + 1;
    if joins(g, row) {
        Gatherer {
            rows,
            last: row,
            ..g
        }
    } else {
        Gatherer {
            entries: g.entries + 1,
            rows,
            first: row,
            last: row,
        }
    }
}

// Whether a single row goes in, and where it does not, why.
#[tactic(auto, unfolding(crate::specs::Gather::row_number, crate::specs::Gather::or_else))]
pub fn row_fits(g: Gatherer, room: usize, row: u64) -> Result<(), Refusal>
    ensures { number_in result ≡ row_number g room row }
{
    early(g, room, above(g, row), 1)?;
    late(added(g, row), room)
}

// The total as a table's entry.
pub fn end_of(total: usize) -> u16
    requires { total ≤ 65535 }
    ensures { result ≡ total }
{
    total as u16
}

// One row into the record and the table, where there is room.
pub fn put_row(g: Gatherer, table: &mut [u16], row: u64) -> Gatherer
    requires { Counted g 1 × ((added g row).entries ≤ length table.old) }
    ensures { (result ≡ added g row) × (table.new ≡ added_to table.old g row) }
{
    let next = added(g, row);
    let at = next.entries - 1;
    table[at] = end_of(next.rows);
    next
}
