// Seeds to segments by the plain rule, over the records of the cuts that `links` reads and writes, and the queue of offers in the
// words behind them.

#![tactic(auto)]

ghost use Rattle.std.specs.Prelude.{◌≡◌, true, ◌+◌, ◌*◌, ◌-◌, ◌<◌, ◌≤◌, length};
ghost use Rattle.stats.specs.Statistics.{Neighbours};
ghost use Rattle.links.specs.Links.{Cuts};
ghost use Rattle.links.specs.Pairs.{Seeds};
ghost use Rattle.links.specs.Tables.{base, records, next, stat_at, is_live};
ghost use Rattle.merge.specs.Steps.{Added, pair_is, pair_key, left_is, left_key, right_is, right_key, Left, Right, Ready, Joining, Taken, Offering, Merged, offers_of};

use links::{Pair, admitted, cell, decode, encode, link, live, next, saving, segment, start};
use queue::Queue;

// Puts the pair of segments that meet in the middle into the queue, if it is admitted. The three cuts come one by one and are made a
// pair where one is put in: a pair would be passed in memory, at each neighbour of seeds.
fn offer(t: &[u32], queue: &mut Queue, left: usize, middle: usize, right: usize)
    requires cuts { Cuts 65535 left middle right × (middle * 8 + 8 ≤ length t.now) }
    requires room { queue.old.len * 2 + 1 < length queue.old.words.now }
    requires neighbours { Neighbours (stat_at t.now left) (stat_at t.now middle) }
    ensures same_reference { queue.new.words.ghost_name ≡ queue.old.words.ghost_name }
    ensures size { length queue.new.words.now ≡ length queue.old.words.now }
    ensures added { Added queue.old.len (pair_is t.now left middle) (pair_key t.now left middle right) queue.old.words.now queue.new.words.now queue.new.len }
{
    let a = segment(t, left);
    let b = segment(t, middle);
    if admitted(a, b) {
        let pair = Pair {
            left,
            middle,
            right,
        };
        queue.push(encode(saving(a, b), pair));
    }
}

// The same for the segment from l to r and the one before it, if there is one.
fn offer_left(t: &[u32], queue: &mut Queue, l: usize, r: usize)
    requires cuts { (l < r) × (r < 65536) × (l * 8 + 8 ≤ length t.now) }
    requires room { queue.old.len * 2 + 1 < length queue.old.words.now }
    requires left { 0 < l → Left t.now l (stat_at t.now l) }
    ensures same_reference { queue.new.words.ghost_name ≡ queue.old.words.ghost_name }
    ensures size { length queue.new.words.now ≡ length queue.old.words.now }
    ensures added { Added queue.old.len (left_is t.now l) (left_key t.now l r) queue.old.words.now queue.new.words.now queue.new.len }
{
    if 0 < l {
        let left = cell(t, l, 1);
        offer(t, queue, left, l, r);
    }
}

// The same for it and the one after it.
fn offer_right(t: &[u32], queue: &mut Queue, l: usize, r: usize)
    requires cuts { (l < r) × (r * 8 + 8 ≤ length t.now) }
    requires room { queue.old.len * 2 + 1 < length queue.old.words.now }
    requires right { 0 < next t.now r → Right 65535 t.now r (stat_at t.now l) }
    ensures same_reference { queue.new.words.ghost_name ≡ queue.old.words.ghost_name }
    ensures size { length queue.new.words.now ≡ length queue.old.words.now }
    ensures added { Added queue.old.len (right_is t.now l r) (right_key t.now l r) queue.old.words.now queue.new.words.now queue.new.len }
{
    let right = next(t, r);
    if 0 < right {
        offer(t, queue, l, r, right);
    }
}

// Joins the two segments of a pair, and offers the pairs that contain the joined segment.
fn join_pair(t: &mut [u32], queue: &mut Queue, p: Pair)
    requires ready { Ready 65535 t.old p.left p.middle p.right × (p.right * 8 + 8 ≤ length t.old) }
    requires room { queue.old.len * 2 + 3 < length queue.old.words.now }
    ensures same_reference { queue.new.words.ghost_name ≡ queue.old.words.ghost_name }
    ensures size { length queue.new.words.now ≡ length queue.old.words.now }
    ensures joining { Joining queue.old.len p.left p.middle p.right t.old t.new queue.old.words.now queue.new.words.now queue.new.len }
{
    let s = stats::join(segment(t, p.left), segment(t, p.middle));
    link(t, p, s);
    offer_left(t, queue, p.left, p.right);
    offer_right(t, queue, p.left, p.right);
}

// Takes an offer: joins its pair, if it is not stale.
fn take_offer(t: &mut [u32], queue: &mut Queue, p: Pair)
    requires cuts { Cuts 65535 p.left p.middle p.right × (p.right * 8 + 8 ≤ length t.old) }
    requires room { queue.old.len * 2 + 3 < length queue.old.words.now }
    requires ready { is_live t.old p.left p.middle p.right ≡ true → Ready 65535 t.old p.left p.middle p.right }
    ensures same_reference { queue.new.words.ghost_name ≡ queue.old.words.ghost_name }
    ensures size { length queue.new.words.now ≡ length queue.old.words.now }
    ensures taken { Taken queue.old.len p.left p.middle p.right t.old t.new queue.old.words.now queue.new.words.now queue.new.len }
{
    if live(t, p) {
        join_pair(t, queue, p);
    }
}

// Offers each neighbouring pair of seeds.
fn offer_all(t: &[u32], queue: &mut Queue, n: usize)
    requires n_nonzero { (0 < n) × (n < 65536) × (base n ≤ length t.now) × (6 * n ≤ length queue.old.words.now) }
    requires empty { queue.old.len ≡ 0 }
    requires seeds { Seeds (stat_at t.now) n }
    ensures same_reference { queue.new.words.ghost_name ≡ queue.old.words.ghost_name }
    ensures size { length queue.new.words.now ≡ length queue.old.words.now }
    ensures offering { Offering (stat_at t.now) n (n - 1) queue.new.words.now queue.new.len }
{
    for i in 0..n - 1 {
        offer(t, queue, i, i + 1, i + 2);
    }
}

// Joins n seeds, whose statistics stand in their records, into segments as the plain rule does, and counts the offers that
// it takes from the queue, stale ones too. The records then lead from 0 through the segments.
pub fn join_seeds(w: &mut [u32], n: usize) -> usize
    requires n_nonzero { (0 < n) × (n < 65536) × (base n + 6 * n ≤ length w.old) }
    requires seeds { Seeds (stat_at (records n w.old)) n }
    ensures value { result ≡ offers_of (stat_at (records n w.old)) n }
    ensures upper_bound { result ≤ 3 * (n - 1) }
    ensures merged { Merged (stat_at (records n w.old)) n (records n w.new) }
{
    start(w, n);
    let (t, rest) = w.split_at_mut(n * 8 + 8);
    let mut queue = Queue::new(rest);
    offer_all(t, &mut queue, n);
    let mut taken = 0;
    while let Some(k) = queue.pop() {
        take_offer(t, &mut queue, decode(k));
        taken += 1;
    }
    taken
}
