// Planning before merging: tests 1 to 5, and the seeds' statistics in the records of the workspace.

#![tactic(auto)]

mod records;
mod rising;

ghost use Rattle.std.specs.Prelude.{◌≡◌, true, ◌*◌, ◌<◌, ◌≤◌, leb, length, map};
ghost use Rattle.model.specs.Refusals.{number_in};
ghost use Rattle.model.specs.Tests.{pick, both, all};
ghost use Rattle.gather_core.specs.Seeds.{seeds_fit, windows};
ghost use Rattle.planning.specs.Refusals.{coverage_fits, count_fits, rows_fit, given_fit, ends_of};
ghost use Rattle.seeds.specs.Ends.{ends_rise, near, near_at, together};
ghost use Rattle.seeds.specs.Judged.{Judged};

use model::{Refusal, Row, row_at};
pub use records::put_rows;
pub use rising::Rises;

// Test 1.
#[tactic(auto, unfolding(planning::specs::Refusals::coverage_fits, model::specs::Tests::both))]
fn covers(start: u64, end: u64) -> bool
    ensures { result ≡ coverage_fits start end }
{
    start < end && end - start <= 4294967295
}

// Test 2.
fn count_fits<R: Row>(rows: &[R]) -> bool
    ensures { result ≡ count_fits (map R.number rows.now) }
{
    let n = rows.len();
    (1 <= n) & (n <= 65535)
}

// Test 3.
fn rows_fit<R: Rises>(start: u64, end: u64, rows: &[R]) -> bool
    requires { 1 ≤ length rows.now }
    ensures { result ≡ rows_fit start end (map R.number rows.now) }
{
    let first = row_at(rows, 0);
    let last = row_at(rows, rows.len() - 1);
    (start <= first) & (last < end) & R::rise(rows)
}

// The first part of test 4: every end is then the end of some rows.
fn ends_rise(seeds: &[u16], count: usize) -> bool
    requires { 1 ≤ length seeds.now }
    ensures { result ≡ ends_rise count seeds.now }
{
    let first = seeds[0];
    let last = usize::from(seeds[seeds.len() - 1]);
    (0 < first) & u16::rise(seeds) & (last == count)
}

// Whether a range of rows is short enough for a seed.
#[tactic(auto, unfolding(crate::specs::Ends::near))]
fn near<R: Row>(rows: &[R], a: usize, b: usize) -> bool
    requires { (a < b) × (b ≤ length rows.now) }
    ensures { result ≡ near (map R.number rows.now) a b }
{
    row_at(rows, b - 1).saturating_sub(row_at(rows, a)) <= 65534
}

// The second part of test 4.
fn seeds_near<R: Row>(rows: &[R], seeds: &[u16]) -> bool
    requires { ends_rise (length rows.now) seeds.now ≡ true }
    ensures { result ≡ all (near_at (map R.number rows.now) seeds.now) (length seeds.now) }
{
    let mut ok = true;
    let mut a = 0;
    for end in seeds {
        let b = usize::from(*end);
        ok &= near(rows, a, b);
        a = b;
    }
    ok
}

// Test 4, where seeds are given.
fn seeds_fit<R: Row>(rows: &[R], seeds: &[u16]) -> bool
    requires { 1 ≤ length seeds.now }
    ensures { result ≡ seeds_fit (map R.number rows.now) seeds.now }
{
    ends_rise(seeds, rows.len()) && seeds_near(rows, seeds)
}

// Test 4.
fn given_fit<R: Row>(rows: &[R], seeds: &[u16]) -> bool
    ensures { result ≡ given_fit (map R.number rows.now) seeds.now }
{
    seeds.is_empty() || seeds_fit(rows, seeds)
}

// Whether two rows stand in the same window.
#[tactic(auto, unfolding(crate::specs::Ends::together))]
fn together(a: u64, b: u64) -> bool
    ensures { result ≡ together a b }
{
    b / 4096 == a / 4096
}

// How many windows rows stand in.
fn count_windows<R: Row>(rows: &[R]) -> usize
    requires { 1 ≤ length rows.now }
    ensures { result ≡ length (windows (map R.number rows.now)) }
{
    let mut n = 1;
    for i in 0..rows.len() - 1 {
        n += usize::from(!together(row_at(rows, i), row_at(rows, i + 1)));
    }
    n
}

// How many seeds there are, given or generated.
fn count_seeds<R: Row>(rows: &[R], seeds: &[u16]) -> usize
    requires { 1 ≤ length rows.now }
    ensures { result ≡ length (ends_of (map R.number rows.now) seeds.now) }
{
    if seeds.is_empty() {
        count_windows(rows)
    } else {
        seeds.len()
    }
}

// Tests 1 to 5, and how many seeds there are. Without ends of seeds they are windows.
pub fn rows_early<R: Rises>(
    start: u64,
    end: u64,
    rows: &[R],
    seeds: &[u16],
    words: usize,
) -> Result<usize, Refusal>
    ensures { Judged start end (map R.number rows.now) seeds.now words result }
{
    if !covers(start, end) {
        return Err(Refusal::Coverage);
    }
    if !count_fits(rows) {
        return Err(Refusal::RowCount);
    }
    if !rows_fit(start, end, rows) {
        return Err(Refusal::Order);
    }
    if !given_fit(rows, seeds) {
        return Err(Refusal::SeedEnds);
    }
    let n = count_seeds(rows, seeds);
    if words < n * 24 {
        return Err(Refusal::Workspace);
    }
    Ok(n)
}
