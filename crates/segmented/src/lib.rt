// Tag 9: a directory, and parts that are local forms.

#![tactic(auto)]

ghost use Rattle.std.specs.Prelude.{◌≡◌, ◌+◌, ◌-◌, ◌^◌, ◌<◌, ◌≤◌, true, is_some, IfSome, length, slice_index};
ghost use Rattle.fields.specs.Le.{Bytes};
ghost use Rattle.model.specs.Tests.{all};
ghost use Rattle.model.specs.Lists.{place_of, walk_of};
ghost use Rattle.model.specs.Answers.{over, rank_or_none, ranks_of, Walked};
ghost use Rattle.directory.specs.Directory.{stated_count, stated_segments, count_at, rows_before, directory_accepts};
ghost use Rattle.segmented.specs.Segmented.{part_accepts, segmented_accepts, segmented_names, part_by, PartReadable, place_in, select_in, walk_in, WalkedAt};

use directory::{Directory, Segment};
use model::Place;

// The part of the body that an entry names.
fn cut(e: Segment, body: &[u8]) -> &[u8]
    requires { e.offset + e.length ≤ length body.now }
    ensures { result.now ≡ part_by e body.now }
{
    let at = usize::from(e.offset);
    &body[at..at + usize::from(e.length)]
}

// Whether every part is accepted.
fn parts_ok(body: &[u8], span: u32) -> bool
    requires { directory_accepts body.now span ≡ true }
    ensures { result ≡ all (part_accepts body.now) (stated_segments body.now) }
{
    let n = directory::segments(body);
    let directory = Directory::new(body, n);
    let mut ok = true;
    for i in 0..n {
        let e = directory.entry(i);
        ok &= forms::check(e.tag, cut(e, body), u32::from(e.span), e.count);
    }
    ok
}

// Whether a segmented body is accepted.
pub fn check(span: u32, body: &[u8]) -> bool
    ensures { result ≡ segmented_accepts span body.now }
{
    directory::check(body, span) && parts_ok(body, span)
}

// A segment by its entry, whose part lies in the body and has the length that its form's readers want.
#[derive(Clone, Copy)]
struct Part<'a> {
    e: Segment,
    body: &'a [u8],
    ghost readable: { PartReadable e body.now },
}

impl<'a> Part<'a> {
    // Where p stands in the part, counted over all segments.
    #[tactic(auto, unfolding(crate::specs::Segmented::place_in, crate::specs::Segmented::counted_from))]
    fn place(&self, p: u32) -> Place
        requires { self.now.e.start ≤ p }
        ensures { result ≡ place_in self.now.e self.now.body.now p }
    {
        let e = self.e;
        let local = forms::place(
            e.tag,
            cut(e, self.body),
            u32::from(e.span),
            e.count,
            p - e.start,
        );
        Place {
            below: u32::from(e.ordinal).wrapping_add(local.below),
            present: local.present,
        }
    }

    // The row of ordinal k, which the segment holds.
    #[tactic(auto, unfolding(crate::specs::Segmented::select_in))]
    fn select(&self, k: u16) -> u32
        requires { (self.now.e.ordinal ≤ k) × (k < self.now.e.ordinal + self.now.e.count) }
        ensures { result ≡ select_in self.now.e self.now.body.now k }
    {
        let e = self.e;
        let local = forms::select(
            e.tag,
            cut(e, self.body),
            u32::from(e.span),
            e.count,
            k - e.ordinal,
        );
        e.start.wrapping_add(local)
    }

    // The rows from row number skip on, as many as fit or remain.
    #[tactic(auto, unfolding(crate::specs::Segmented::walk_in))]
    fn walk(&self, skip: u16, out: &mut [u32]) -> usize
        ensures { Walked (walk_in self.now.e self.now.body.now skip (length out.old)) out.old out.new result }
    {
        let e = self.e;
        let own = cut(e, self.body);
        forms::walk(e.tag, own, u32::from(e.span), e.count, skip, e.start, out)
    }

    // The same behind the first at of out.
    fn walk_at(&self, skip: u16, out: &mut [u32], at: usize) -> usize
        requires { at ≤ length out.old }
        ensures { WalkedAt (walk_in self.now.e self.now.body.now skip (length out.old - at)) at out.old out.new result }
    {
        self.walk(skip, &mut out[at..])
    }
}

// A segmented body that is accepted over its span. `narrow` and `bytes` are what the types of the fields say.
#[derive(Clone, Copy)]
pub struct Segmented<'a> {
    span: u32,
    body: &'a [u8],
    ghost narrow: { span < 2 ^ 32 },
    ghost bytes: { Bytes body.now },
    ghost accepted: { segmented_accepts span body.now ≡ true },
}

impl<'a> Segmented<'a> {
    // Of a body that is known to be accepted.
    pub fn new(span: u32, body: &'a [u8]) -> Segmented<'a>
        requires { segmented_accepts span body.now ≡ true }
        ensures { (result.span ≡ span) × (result.body.now ≡ body.now) }
    {
        Segmented { span, body }
    }

    // The body, if it is accepted.
    pub fn check(span: u32, body: &'a [u8]) -> Option<Segmented<'a>>
        ensures accepted { is_some result ≡ segmented_accepts span body.now }
        ensures same { IfSome result (λ s. (s.span ≡ span) × (s.body.now ≡ body.now)) }
    {
        if check(span, body) {
            Some(Segmented { span, body })
        } else {
            None
        }
    }

    // The directory: in an accepted body there is room for it.
    fn directory(&self) -> Directory
        ensures body { result.body.now ≡ self.now.body.now }
        ensures n { result.n ≡ stated_segments self.now.body.now }
    {
        Directory::new(self.body, directory::segments(self.body))
    }

    // Where p stands: in the last segment that starts at p or before, or behind it, where its part need not be read.
    pub fn place(&self, p: u32) -> Place
        ensures { result ≡ place_of (segmented_names self.now.body.now) p }
    {
        let directory = self.directory();
        let Some(last) = directory.by_start(p).checked_sub(1) else {
            return Place {
                below: 0,
                present: false,
            };
        };
        let e = directory.entry(last);
        if u32::from(e.span) <= p - e.start {
            return Place {
                below: u32::from(e.ordinal) + u32::from(e.count),
                present: false,
            };
        }
        let part = Part { e, body: self.body };
        part.place(p)
    }

    // The rank of p, or the number that stands for nothing.
    fn rank(&self, p: u32) -> u32
        ensures { result ≡ rank_or_none (place_of (segmented_names self.now.body.now) p) }
    {
        if self.span <= p {
            u32::MAX
        } else {
            model::rank_or(self.place(p))
        }
    }

    // The same of many positions.
    #[tactic(auto, unfolding(model::specs::Answers::ranks_of))]
    pub fn ranks(&self, positions: &[u32], out: &mut [u32])
        requires { length positions.now ≤ length out.old }
        ensures { out.new ≡ over (ranks_of (segmented_names self.now.body.now) positions.now) out.old }
    {
        model::answer_each(positions, out, |p| self.rank(p));
    }

    // The row of ordinal k: in the last segment that states at most k rows before it. There is one, as the first states none.
    pub fn select(&self, k: u16) -> u32
        requires { k < stated_count self.now.body.now }
        ensures { result ≡ slice_index (segmented_names self.now.body.now) k }
    {
        let directory = self.directory();
        let last = directory.by_ordinal(k) - 1;
        let part = Part {
            e: directory.entry(last),
            body: self.body,
        };
        part.select(k)
    }

    // The rows from row number skip of segment first on, segment after segment, as many as fit or remain.
    fn walk_from(&self, first: usize, skip: u16, out: &mut [u32]) -> usize
        requires { (first < stated_segments self.now.body.now) × (skip ≤ count_at self.now.body.now first) }
        ensures { Walked (walk_of (segmented_names self.now.body.now) (rows_before self.now.body.now first + skip) (length out.old)) out.old out.new result }
    {
        let directory = self.directory();
        let n = directory::segments(self.body);
        let mut from = skip;
        let mut at = 0;
        for i in first..n {
            if out.len() <= at {
                return at;
            }
            let part = Part {
                e: directory.entry(i),
                body: self.body,
            };
            at += part.walk_at(from, out, at);
            from = 0;
        }
        at
    }

    // The rows from ordinal k on, as many as fit or remain.
    pub fn walk(&self, k: u16, out: &mut [u32]) -> usize
        ensures { Walked (walk_of (segmented_names self.now.body.now) k (length out.old)) out.old out.new result }
    {
        if fields::read16(self.body, 0) <= k {
            return 0;
        }
        let directory = self.directory();
        let first = directory.by_ordinal(k) - 1;
        let e = directory.entry(first);
        self.walk_from(first, k - e.ordinal, out)
    }
}
