// From merged records: what the segmented body costs, and its bytes.

#![tactic(auto)]

ghost use Rattle.std.specs.Prelude.{◌≡◌, ◌+◌, ◌*◌, ◌<◌, ◌≤◌, ◌++◌, length, map};
ghost use Rattle.fields.specs.Le.{digits};
ghost use Rattle.stats.specs.Statistics.{Sound};
ghost use Rattle.cost.specs.Forms.{local_form};
ghost use Rattle.directory.specs.Directory.{directory_size};
ghost use Rattle.emit.specs.Written.{Written};
ghost use Rattle.encode.specs.Segments.{Placed};
ghost use Rattle.assemble.specs.Emission.{payload_by, entry_by, Small, Piece, Emittable, Emitted, Writable, Laid};
ghost use Rattle.assemble.specs.Sums.{one, also, finished, Adds, Bounded, Known, Summed};

use directory::Segment;
use model::{Row, row_at};

// ---- what the segments cost together

// Of the segments passed: how many, the bytes of their payloads, the largest depth and words, and their statistics as one.
#[derive(Clone, Copy)]
pub struct Tally {
    pub segments: usize,
    pub bytes: u64,
    pub depth: u32,
    pub words: u32,
    pub stats: stats::Stats,
}

// The segments after merging, the costs of their body, and the statistics of all rows.
#[derive(Clone, Copy)]
pub struct Summary {
    pub segments: usize,
    pub form: cost::Form,
    pub stats: stats::Stats,
}

#[tactic(auto, unfolding(crate::specs::Sums::one))]
fn one(s: stats::Stats) -> Tally
    requires { Sound s }
    ensures { result ≡ one s }
{
    let f = cost::local_form(s);
    Tally {
        segments: 1,
        bytes: f.bytes,
        depth: f.depth,
        words: f.words,
        stats: s,
    }
}

// One segment more, behind the others.
fn also(t: Tally, s: stats::Stats) -> Tally
    requires { Adds t s }
    ensures { result ≡ also t s }
{
    let f = cost::local_form(s);
    Tally {
        segments: t.segments + 1,
        bytes: t.bytes + f.bytes,
        depth: t.depth.max(f.depth),
        words: t.words.max(f.words),
        stats: stats::join(t.stats, s),
    }
}

// The costs of a directory come to those of the segments.
fn finish(t: Tally) -> Summary
    requires { Bounded t }
    ensures { result ≡ finished t }
{
    let form = cost::Form {
        tag: 9,
        trimmed: false,
        bytes: 4 + 16 * t.segments as u64 + t.bytes,
        depth: cost::depth(t.segments as u64) + t.depth,
        words: t.words,
    };
    Summary {
        segments: t.segments,
        form,
        stats: t.stats,
    }
}

// One walk over the records. The first segment stands at the cut 0.
pub fn summarize(w: &[u32], n: usize) -> Summary
    requires { Known n w.now }
    ensures { Summed n w.now result }
{
    let mut sum = one(links::segment(w, 0));
    let mut x = links::next(w, 0);
    while x < n {
        sum = also(sum, links::segment(w, x));
        x = links::next(w, x);
    }
    finish(sum)
}

// ---- the bytes of the segmented body

#[tactic(auto, unfolding(crate::specs::Emission::entry_by))]
fn entry(s: stats::Stats, tag: u8, ordinal: usize, offset: usize, size: usize) -> Segment
    requires { Small s ordinal offset size }
    ensures { result ≡ entry_by s tag ordinal offset size }
{
    Segment {
        start: s.first,
        span: (s.last - s.first + 1) as u16,
        count: s.count as u16,
        ordinal: ordinal as u16,
        offset: offset as u16,
        length: size as u16,
        tag,
    }
}

// The bytes of a directory of n entries: entry n stands behind them, or the first payload.
fn directory_size(n: usize) -> usize
    requires { n ≤ 65535 }
    ensures { result ≡ directory_size n }
{
    4 + 16 * n
}

// Count and segments, before the entries.
fn head(out: &mut [u8], count: u16, segments: u16) -> usize
    requires { 4 ≤ length out.old }
    ensures { Written (digits 2 count ++ digits 2 segments) 0 out.old out.new result }
{
    fields::put16(out, 0, count);
    fields::put16(out, 2, segments);
    4
}

// Segment i of these rows: its payload from `at` on, and its entry.
fn place_rows<R: Row>(
    out: &mut [u8],
    at: usize,
    i: usize,
    rows: &[R],
    s: stats::Stats,
    ordinal: usize,
) -> usize
    requires { Piece s (map R.number rows.now) at i ordinal (length out.old) }
    ensures { Placed (directory_size i) at (entry_by s (local_form s).tag ordinal at (length (payload_by s (map R.number rows.now)))) (payload_by s (map R.number rows.now)) out.old out.new result }
{
    let f = cost::local_form(s);
    let r = encode::local_rows(out, at, rows, row_at(rows, 0), f.tag, s.last - s.first + 1);
    encode::put_entry(out, directory_size(i), entry(s, f.tag, ordinal, at, r - at));
    r
}

// The body of the rows, whose segments the records hold. The entries come first, so payloads go behind the room for them.
pub fn segmented_rows<R: Row>(
    out: &mut [u8],
    rows: &[R],
    start: u64,
    w: &[u32],
    n: usize,
    segments: usize,
) -> usize
    requires { Emittable n w.now start (map R.number rows.now) segments (length out.old) }
    ensures { Emitted n w.now start (map R.number rows.now) out.old out.new result }
{
    let mut x = 0;
    let mut i = 0;
    let mut a = 0;
    let mut at = directory_size(segments);
    while x < n {
        let s = links::segment(w, x);
        let b = a + s.count as usize;
        at = place_rows(out, at, i, &rows[a..b], s, a);
        a = b;
        i += 1;
        x = links::next(w, x);
    }
    head(out, a as u16, segments as u16);
    at
}

// The body that a form asks for: the segmented one, or a whole one. The summary is at hand from the choice.
pub fn body_rows<R: Row>(
    out: &mut [u8],
    rows: &[R],
    start: u64,
    span: u32,
    f: cost::Form,
    sum: Summary,
    w: &[u32],
    n: usize,
) -> usize
    requires { Writable n w.now start (map R.number rows.now) span f sum (length out.old) }
    ensures { Laid n w.now start (map R.number rows.now) span f out.old out.new result }
{
    if f.tag == 9 {
        return segmented_rows(out, rows, start, w, n, sum.segments);
    }
    if f.trimmed {
        return encode::trimmed_rows(out, rows, start, f.tag);
    }
    let all = sum.stats;
    encode::plain_rows(out, rows, start, f.tag, span, all.runs as u16)
}
