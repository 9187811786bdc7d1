// The records of the cuts that merging works on, and pairs of neighbouring segments as offers. The workspace has a record of
// eight words for each cut from 0 to n, and the queue of offers behind them. A record holds the cut after it (0: no segment
// starts here), the cut before it, and first, last, count and runs of the segment that starts here; two words are to spare.

#![tactic(auto)]

ghost use Rattle.std.specs.Prelude.{◌≡◌, true, ◌+◌, ◌*◌, ◌<◌, ◌≤◌, length, replicate};
ghost use Rattle.model.specs.Answers.{over};
ghost use Rattle.stats.specs.Statistics.{Neighbours};
ghost use Rattle.links.specs.Keys.{code, pair_of};
ghost use Rattle.links.specs.Pairs.{admits, saves};
ghost use Rattle.links.specs.Tables.{base, records, field, next, stat_at, is_live, put, put_stat, linked, Started};

// A pair of neighbouring segments: where the left one starts, where they meet, where the right one ends.
#[derive(Clone, Copy)]
pub struct Pair {
    pub left: usize,
    pub middle: usize,
    pub right: usize,
}

// An offer as one number: the greater one saves more, or as much from further left.
pub fn encode(saving: u64, p: Pair) -> u64
    requires { (saving < 32768) × (p.left < 65536) × (p.middle < 65536) × (p.right < 65536) }
    ensures { result ≡ code saving p.left p.middle p.right }
{
    saving * 281474976710656
        + (65535 - p.left as u64) * 4294967296
        + p.middle as u64 * 65536
        + p.right as u64
}

#[tactic(auto, unfolding(crate::specs::Keys::pair_of))]
pub fn decode(k: u64) -> Pair
    ensures { result ≡ pair_of k }
{
    Pair {
        left: (65535 - k / 4294967296 % 65536) as usize,
        middle: (k / 65536 % 65536) as usize,
        right: (k % 65536) as usize,
    }
}

// Whether two neighbouring segments may be joined: a saving of nothing is enough.
#[tactic(auto, unfolding(crate::specs::Pairs::admits, model::specs::Tests::both))]
pub fn admitted(a: stats::Stats, b: stats::Stats) -> bool
    requires { Neighbours a b }
    ensures { result ≡ admits a b }
{
    let whole = stats::join(a, b);
    whole.last - whole.first < 65535
        && cost::payload(whole) <= 16 + cost::payload(a) + cost::payload(b)
}

// What joining them saves: a directory entry and two payloads for one.
pub fn saving(a: stats::Stats, b: stats::Stats) -> u64
    requires neighbours { Neighbours a b }
    requires b_value { admits a b ≡ true }
    ensures { (result ≡ saves a b) × (result < 32768) }
{
    16 + cost::payload(a) + cost::payload(b) - cost::payload(stats::join(a, b))
}

// Word k of the record of the cut x.
#[tactic(auto, unfolding(crate::specs::Tables::field))]
pub fn cell(w: &[u32], x: usize, k: usize) -> usize
    requires { x * 8 + k < length w.now }
    ensures { (result ≡ field w.now x k) × (result < 4294967296) }
{
    w[x * 8 + k] as usize
}

#[tactic(auto, unfolding(crate::specs::Tables::put))]
fn put(w: &mut [u32], x: usize, k: usize, v: u32)
    requires { x * 8 + k < length w.old }
    ensures { w.new ≡ put w.old x k v }
{
    w[x * 8 + k] = v;
}

// The cut after x, where a segment starts at x.
pub fn next(w: &[u32], x: usize) -> usize
    requires { x * 8 + 8 ≤ length w.now }
    ensures { (result ≡ next w.now x) × (result < 4294967296) }
{
    cell(w, x, 0)
}

// The statistics of the segment that starts at x.
#[tactic(auto, unfolding(crate::specs::Tables::stat_at, crate::specs::Tables::field))]
pub fn segment(w: &[u32], x: usize) -> stats::Stats
    requires { x * 8 + 8 ≤ length w.now }
    ensures { result ≡ stat_at w.now x }
{
    stats::Stats {
        first: w[x * 8 + 2],
        last: w[x * 8 + 3],
        count: w[x * 8 + 4],
        runs: w[x * 8 + 5],
    }
}

#[tactic(auto, unfolding(crate::specs::Tables::put_stat))]
pub fn put_segment(w: &mut [u32], x: usize, s: stats::Stats)
    requires { x * 8 + 8 ≤ length w.old }
    ensures { w.new ≡ put_stat w.old x s }
{
    put(w, x, 2, s.first);
    put(w, x, 3, s.last);
    put(w, x, 4, s.count);
    put(w, x, 5, s.runs);
}

// Takes the cut in the middle out: one segment, with the statistics s.
#[tactic(auto, unfolding(crate::specs::Tables::linked))]
pub fn link(w: &mut [u32], p: Pair, s: stats::Stats)
    requires { (p.left < p.middle) × (p.middle < p.right) × (p.right < 65536) × (p.right * 8 + 8 ≤ length w.old) }
    ensures { w.new ≡ linked p.left p.middle p.right s w.old }
{
    put(w, p.left, 0, p.right as u32);
    put(w, p.middle, 0, 0);
    put(w, p.right, 1, p.left as u32);
    put_segment(w, p.left, s);
}

// Whether the two segments of a pair are still there.
#[tactic(auto, unfolding(crate::specs::Tables::is_live, model::specs::Tests::both))]
pub fn live(w: &[u32], p: Pair) -> bool
    requires { (p.left * 8 + 8 ≤ length w.now) × (p.middle * 8 + 8 ≤ length w.now) }
    ensures { result ≡ is_live w.now p.left p.middle p.right }
{
    next(w, p.left) == p.middle && next(w, p.middle) == p.right
}

// Makes each seed a segment of its own. The statistics are those that stand there.
pub fn start(w: &mut [u32], n: usize)
    requires { (n < 65536) × (base n ≤ length w.old) }
    ensures { Started n (records n w.old) (records n w.new) }
{
    for i in 0..n {
        put(w, i, 0, (i + 1) as u32);
        put(w, i + 1, 1, i as u32);
    }
    put(w, n, 0, 0);
}

// Zeroes the words that planning over n seeds may have used, 24 for each, and leaves the rest.
pub fn clear(w: &mut [u32], n: usize)
    requires { n * 24 ≤ length w.old }
    ensures { w.new ≡ over (replicate (n * 24) 0) w.old }
{
    w[..n * 24].fill(0);
}
