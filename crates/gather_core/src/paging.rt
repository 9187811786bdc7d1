// Pages of rows: each is one seed where its rows are close enough, or goes in row by row.
ghost use Rattle.std.specs.Prelude.{◌≡◌, ◌<◌, ◌≤◌, true, length};
ghost use Rattle.model.specs.Refusals.{number_in};
ghost use Rattle.gather_core.specs.Gather.{rises, one_seed, added_all, added_all_to, seeded, paged, paged_to, some_number, Counted, Paging};

use crate::{Gatherer, above, added, early, end_of, late, put_row, rises};
use model::Refusal;

// Whether a page that is not empty, and whose rows rise, is one seed.
#[tactic(auto, using(crate::proofs::Climbing::rises_ends), unfolding(crate::specs::Gather::one_seed))]
fn one_seed(rows: &[u64]) -> bool
    requires { (0 < length rows.now) × (rises rows.now ≡ true) }
    ensures { result ≡ one_seed rows.now }
{
    rows[rows.len() - 1] - rows[0] < 65535
}

// The record with rows in, each added singly.
fn added_all(g: Gatherer, rows: &[u64]) -> Gatherer
    requires { Counted g (length rows.now) }
    ensures { result ≡ added_all g rows.now }
{
    let mut h = g;
    for row in rows {
        h = added(h, *row);
    }
    h
}

// The same with the table, where there is room.
fn put_rows(g: Gatherer, table: &mut [u16], rows: &[u64]) -> Gatherer
    requires { Counted g (length rows.now) × ((added_all g rows.now).entries ≤ length table.old) }
    ensures { (result ≡ added_all g rows.now) × (table.new ≡ added_all_to table.old g rows.now) }
{
    let mut h = g;
    for row in rows {
        h = put_row(h, table, *row);
    }
    h
}

// The record with a page in that is one seed.
#[tactic(auto, unfolding(crate::specs::Gather::seeded))]
fn seeded(g: Gatherer, rows: &[u64]) -> Gatherer
    requires { Counted g (length rows.now) × (0 < length rows.now) }
    ensures { result ≡ seeded g rows.now }
{
    let n = rows.len();
    Gatherer {
        entries: g.entries + 1,
        rows: g.rows + n,
        first: rows[0],
        last: rows[n - 1],
    }
}

// The record with a page in that is not empty, and whose rows rise.
#[tactic(auto, unfolding(crate::specs::Gather::paged, model::specs::Tests::pick))]
fn paged(g: Gatherer, rows: &[u64]) -> Gatherer
    requires { Counted g (length rows.now) × (0 < length rows.now) × (rises rows.now ≡ true) }
    ensures { result ≡ paged g rows.now }
{
    if one_seed(rows) {
        seeded(g, rows)
    } else {
        added_all(g, rows)
    }
}

// Whether a page that is not empty goes in, and where it does not, why. Where there is room for a seed of each row, none are counted.
#[tactic(auto, unfolding(crate::specs::Gather::some_number, crate::specs::Gather::or_else))]
pub fn page_fits(g: Gatherer, room: usize, rows: &[u64]) -> Result<(), Refusal>
    requires { 0 < length rows.now }
    ensures { number_in result ≡ some_number g room rows.now }
{
    early(g, room, above(g, rows[0]) & rises(rows), rows.len())?;
    if rows.len() <= room - g.entries {
        return Ok(());
    }
    late(paged(g, rows), room)
}

// A page that is one seed into the record and the table, where there is room.
pub(crate) fn put_seed(g: Gatherer, table: &mut [u16], rows: &[u64]) -> Gatherer
    requires { Paging g (length table.old) rows.now × (one_seed rows.now ≡ true) }
    ensures { (result ≡ paged g rows.now) × (table.new ≡ paged_to table.old g rows.now) }
{
    let next = seeded(g, rows);
    let at = g.entries;
    table[at] = end_of(next.rows);
    next
}

// The record and the table with a page in that is not empty, where there is room.
pub fn put_page(g: Gatherer, table: &mut [u16], rows: &[u64]) -> Gatherer
    requires { Paging g (length table.old) rows.now }
    ensures { (result ≡ paged g rows.now) × (table.new ≡ paged_to table.old g rows.now) }
{
    if one_seed(rows) {
        put_seed(g, table, rows)
    } else {
        put_rows(g, table, rows)
    }
}
