// The seeds one after the other: where each ends, and its statistics in its record of the workspace.
ghost use Rattle.std.specs.Prelude.{◌≡◌, ◌<◌, length, get_or, map};
ghost use Rattle.stats.specs.Statistics.{stats_of};
ghost use Rattle.model.specs.Lists.{positions_of};
ghost use Rattle.planning.specs.Refusals.{ends_of};
ghost use Rattle.planning.specs.Segments.{part};
ghost use Rattle.seeds.specs.Ends.{Window};
ghost use Rattle.seeds.specs.Placed.{Seeded, Placed, Begun, Ranged};

use crate::together;
use model::{Row, row_at};

// Where the window of the row at index a ends, for which that row is the first.
fn window_end<R: Row>(rows: &[R], a: usize) -> usize
    requires { a < length rows.now }
    ensures { Window (map R.number rows.now) a result }
{
    for j in a + 1..rows.len() {
        if !together(row_at(rows, j - 1), row_at(rows, j)) {
            return j;
        }
    }
    rows.len()
}

// Where seed i ends, which starts at index a.
fn seed_end<R: Row>(rows: &[R], seeds: &[u16], i: usize, a: usize) -> usize
    requires { Begun (map R.number rows.now) seeds.now i a }
    ensures { result ≡ get_or (ends_of (map R.number rows.now) seeds.now) i 0 }
{
    if seeds.is_empty() {
        window_end(rows, a)
    } else {
        usize::from(seeds[i])
    }
}

// The statistics of the rows from index a up to index b.
fn part_stats<R: Row>(rows: &[R], a: usize, b: usize, start: u64) -> stats::Stats
    requires { Ranged start (map R.number rows.now) a b }
    ensures { result ≡ stats_of (part (positions_of start (map R.number rows.now)) a b) }
{
    stats::rows_stats(&rows[a..b], start)
}

// Puts the statistics of each seed in its record.
pub fn put_rows<R: Row>(w: &mut [u32], rows: &[R], seeds: &[u16], start: u64, n: usize)
    requires { Seeded start (map R.number rows.now) seeds.now n w.old }
    ensures { Placed start (map R.number rows.now) seeds.now n w.old w.new }
{
    let mut a = 0;
    for i in 0..n {
        let b = seed_end(rows, seeds, i, a);
        links::put_segment(w, i, part_stats(rows, a, b, start));
        a = b;
    }
}
