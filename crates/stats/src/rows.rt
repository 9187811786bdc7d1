// Runs and statistics of rows of either width.
ghost use Rattle.std.specs.Prelude.{◌≡◌, suc, ◌+◌, ◌-◌, ◌%◌, ◌<◌, ◌≤◌, eqb, length, map, get_or};
ghost use Rattle.model.specs.Lists.{runs_of, positions_of};
ghost use Rattle.stats.specs.Statistics.{stats_of};
ghost use Rattle.stats.specs.Rows.{run_end, Within};

use crate::Stats;
use model::{Row, row_at};

// Whether b is the number after a.
fn follows(a: u64, b: u64) -> bool
    ensures { result ≡ eqb b (suc a) }
{
    b > 0 && b - 1 == a
}

// Where the run of rows that starts at index i ends.
pub fn run_end<R: Row>(rows: &[R], i: usize) -> usize
    requires { i < length rows.now }
    ensures { result ≡ run_end (map R.number rows.now) i }
{
    for j in i + 1..rows.len() {
        if !follows(row_at(rows, j - 1), row_at(rows, j)) {
            return j;
        }
    }
    rows.len()
}

// How far it is to the row of index i from the row before it, by the lowest 32 digits.
fn step_to<R: Row>(rows: &[R], i: usize) -> u32
    requires { (1 ≤ i) × (i < length rows.now) }
    ensures { (get_or (map R.number rows.now) (i - 1) 0 + result) % 4294967296 ≡ get_or (map R.number rows.now) i 0 % 4294967296 }
{
    rows[i - 1].step(rows[i])
}

// How many runs the rows make: one, and one more for each row that does not follow the row before it. No branch here depends on
// rows: a loop that left each run at its end would guess wrong at every short one. Two rows are less than 2^32 apart, so that the
// lowest 32 digits of a step tell whether it is 1.
fn count_runs<R: Row>(rows: &[R], start: u64) -> u32
    requires { Within start (map R.number rows.now) }
    ensures { result ≡ length (runs_of (positions_of start (map R.number rows.now))) }
{
    let mut runs = 1;
    for i in 1..rows.len() {
        runs += u32::from(step_to(rows, i) != 1);
    }
    runs
}

// A row's position.
pub fn position(row: u64, start: u64) -> u32
    requires { (start ≤ row) × (row < start + 4294967295) }
    ensures { result ≡ row - start }
{
    (row - start) as u32
}

// The statistics of rows in a coverage.
pub fn rows_stats<R: Row>(rows: &[R], start: u64) -> Stats
    requires { Within start (map R.number rows.now) }
    ensures { result ≡ stats_of (positions_of start (map R.number rows.now)) }
{
    let n = rows.len();
    let runs = count_runs(rows, start);
    Stats {
        first: position(row_at(rows, 0), start),
        last: position(row_at(rows, n - 1), start),
        count: n as u32,
        runs,
    }
}
