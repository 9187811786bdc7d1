// What most rows and pages are, seen by the tests that such a one needs. Other pages go by every test in its order.
ghost use Rattle.std.specs.Prelude.{◌≡◌, true, false, length};
ghost use Rattle.gather_core.specs.Gather.{added, added_to, Follows, Goes, GoesIn};
ghost use Rattle.gather.specs.Records.{Leads, went_on};

use gather_core::{Gatherer, above, early, end_of, rises_closely, too_many};
use model::Refusal;

// Whether a row has others before it, and tests 12, 3 and 2 let it pass.
fn follows(g: Gatherer, room: usize, row: u64) -> bool
    ensures { (result ≡ true → Follows g room row) × (result ≡ false → Follows g room row → ⊥) }
{
    g.entries != 0
        && g.entries <= room
        && g.entries <= g.rows
        && g.rows <= 65534
        && g.first <= g.last
        && g.last < row
}

// Where a row goes: on in the last seed, or into one that begins with it.
#[derive(Clone, Copy)]
pub(crate) enum Way {
    On,
    Anew,
}

// Where a row goes, or why not. Behind a record with rows, one that does not follow is refused by one of the first tests. The
// compiled code has an end of its own for either way; that of a first row goes over into that of a row that begins another seed.
pub(crate) fn row_way(g: Gatherer, room: usize, row: u64) -> Result<Way, Refusal>
    ensures { Leads result g room row }
{
    if follows(g, room, row) {
        if row / 4096 == g.first / 4096 {
            return Ok(Way::On);
        }
    } else if g.rows != 0 {
        return Err(early(g, room, above(g, row), 1).unwrap_err());
    } else if g.entries != 0 {
        return Err(Refusal::Record);
    }
    if g.entries < room {
        Ok(Way::Anew)
    } else {
        Err(Refusal::Table)
    }
}

// A row into the record and the table that goes on in the last seed. The record's entries and first row are the old ones, so that
// they need no store. The last row is stored before the total: a last store that is the same for both ways would be shared, by a
// jump more.
pub(crate) fn put_on(g: &mut Gatherer, table: &mut [u16], row: u64)
    requires { Goes true g.old (length table.old) row }
    ensures taken { (g.new ≡ added g.old row) × (table.new ≡ added_to table.old g.old row) }
    ensures others_unchanged { went_on g.old g.new ≡ g.new }
{
    let rows = g.rows + 1;
    table[g.entries - 1] = end_of(rows);
    g.last = row;
    g.rows = rows;
}

// A row into the record and the table that begins a seed.
pub(crate) fn put_anew(g: &mut Gatherer, table: &mut [u16], row: u64)
    requires { Goes false g.old (length table.old) row }
    ensures { (g.new ≡ added g.old row) × (table.new ≡ added_to table.old g.old row) }
{
    let next = Gatherer {
        entries: g.entries + 1,
        rows: g.rows + 1,
        first: row,
        last: row,
    };
    table[g.entries] = end_of(next.rows);
    *g = next;
}

// Whether a page goes in behind others, in a table with an entry for each of its rows. That its rows rise is tested from the last
// row on.
pub(crate) fn goes_in(g: Gatherer, room: usize, rows: &[u64]) -> bool
    ensures { result ≡ true → GoesIn g room rows.now }
{
    !rows.is_empty()
        && g.entries != 0
        && g.entries <= room
        && rows.len() <= room - g.entries
        && g.entries <= g.rows
        && !too_many(g, rows.len())
        && g.first <= g.last
        && rises_closely(g.last, rows, 0)
}
