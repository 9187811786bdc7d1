// Statistics of a segment: counted from its rows, or joined from those of two neighbours.

#![tactic(auto)]

ghost use Rattle.std.specs.Prelude.{◌≡◌, ◌≤◌};
ghost use Rattle.model.specs.Tests.{pick};
ghost use Rattle.stats.specs.Statistics.{Neighbours, joined};

mod rows;

pub use rows::{position, rows_stats, run_end};

// Statistics of some positions that rise: first and last, how many, and how many runs they make.
#[derive(Clone, Copy)]
pub struct Stats {
    pub first: u32,
    pub last: u32,
    pub count: u32,
    pub runs: u32,
}

pub fn one_if(t: bool) -> u32
    ensures { (result ≡ pick t 1 0) × (result ≤ 1) }
{
    u32::from(t)
}

// The statistics of two neighbouring segments as one, without a look at rows.
#[tactic(auto, unfolding(crate::specs::Statistics::joined))]
pub fn join(a: Stats, b: Stats) -> Stats
    requires { Neighbours a b }
    ensures { result ≡ joined a b }
{
    let touch = one_if(b.first == a.last + 1);
    Stats {
        first: a.first,
        last: b.last,
        count: a.count + b.count,
        runs: a.runs + b.runs - touch,
    }
}
