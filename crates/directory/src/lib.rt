// The directory of a segmented body (tag 9). What the segments hold is no matter of this crate.

#![tactic(auto)]

ghost use Rattle.std.specs.Prelude.{◌≡◌, ◌+◌, ◌*◌, ◌<◌, ◌≤◌, length};
ghost use Rattle.model.specs.Lists.{counted};
ghost use Rattle.directory.specs.Directory.{stated_segments, starts_to, ordinals_to, zero_at, entry_of, is_local, fits, segments_fit, directory_accepts};

// One entry of the directory: where the segment starts, its span, rows, rows before it, and where its payload lies.
// Hosts lend tables of it, so its layout is C's.
#[repr(C)]
#[derive(Clone, Copy)]
pub struct Segment {
    pub start: u32,
    pub span: u16,
    pub count: u16,
    pub ordinal: u16,
    pub offset: u16,
    pub length: u16,
    pub tag: u8,
}

// The stated number of segments.
pub fn segments(body: &[u8]) -> usize
    requires { 4 ≤ length body.now }
    ensures { (result ≡ stated_segments body.now) × (result < 65536) }
{
    usize::from(fields::read16(body, 2))
}

// Whether a tag is a local form's.
#[tactic(auto, unfolding(crate::specs::Directory::is_local, model::specs::Tests::pick))]
fn is_local(tag: u8) -> bool
    ensures { result ≡ is_local tag }
{
    matches!(tag, 1 | 3 | 4 | 6 | 7)
}

// Whether a count is one that the span has room for.
fn counted(span: u32, count: u16) -> bool
    ensures { result ≡ counted span count }
{
    (1 <= count) & (u32::from(count) <= span)
}

// Whether a segment starts at `free` or after, ends within the span, is well-formed, and states `rows` before it and its payload at `at`.
fn fits(e: Segment, nought: u8, free: u64, rows: u64, at: usize, span: u32) -> bool
    ensures { result ≡ fits e nought free rows at span }
{
    let start = u64::from(e.start);
    let inside = (free <= start) & (start + u64::from(e.span) <= u64::from(span));
    let formed = counted(u32::from(e.span), e.count) & is_local(e.tag) & (nought == 0);
    let stated = (u64::from(e.ordinal) == rows) & (usize::from(e.offset) == at);
    inside & formed & stated
}

/// The entries of n segments, which lie in front of a body behind its first four bytes.
#[derive(Clone, Copy)]
pub struct Directory<'a> {
    body: &'a [u8],
    n: usize,
    ghost sized: { 4 + 16 * n ≤ length body.now },
}

impl<'a> Directory<'a> {
    pub fn new(body: &'a [u8], n: usize) -> Directory<'a>
        requires { 4 + 16 * n ≤ length body.now }
        ensures body { result.body.now ≡ body.now }
        ensures n { result.n ≡ n }
    {
        Directory { body, n }
    }

    // Entry i.
    pub fn entry(&self, i: usize) -> Segment
        requires { i < self.now.n }
        ensures { result ≡ entry_of self.now.body.now i }
    {
        let at = i * 16;
        Segment {
            start: fields::read32(self.body, 4 + at),
            span: fields::read16(self.body, 8 + at),
            count: fields::read16(self.body, 10 + at),
            ordinal: fields::read16(self.body, 12 + at),
            offset: fields::read16(self.body, 14 + at),
            length: fields::read16(self.body, 16 + at),
            tag: self.body[18 + at],
        }
    }

    // The byte called zero of entry i.
    #[tactic(auto, using(crate::proofs::Checking::byte_is))]
    fn nought(&self, i: usize) -> u8
        requires { i < self.now.n }
        ensures { result ≡ zero_at self.now.body.now i }
    {
        self.body[19 + i * 16]
    }

    // How many of the segments start at p or before.
    #[tactic(auto, unfolding(fields::specs::Le::width_of))]
    pub fn by_start(&self, p: u32) -> usize
        ensures { result ≡ starts_to self.now.body.now self.now.n p }
    {
        search::upper(self.body, 4, 16, self.n, p, true, false)
    }

    // How many of the segments state at most k rows before them.
    #[tactic(auto, unfolding(fields::specs::Le::width_of))]
    pub fn by_ordinal(&self, k: u16) -> usize
        ensures { result ≡ ordinals_to self.now.body.now self.now.n k }
    {
        search::upper(self.body, 12, 16, self.n, u32::from(k), false, false)
    }

    // Whether the segments fit, have the stated rows together, and end where the body ends. No early exit: the sums never pass 2^33.
    fn stand(&self, span: u32) -> bool
        requires { self.now.n < 65536 }
        ensures { result ≡ segments_fit self.now.body.now span self.now.n }
    {
        let count = u64::from(fields::read16(self.body, 0));
        let mut ok = true;
        let mut free: u64 = 0;
        let mut rows: u64 = 0;
        let mut at = 4 + 16 * self.n;
        for i in 0..self.n {
            let e = self.entry(i);
            ok &= fits(e, self.nought(i), free, rows, at, span);
            free = u64::from(e.start) + u64::from(e.span);
            rows += u64::from(e.count);
            at += usize::from(e.length);
        }
        ok & (rows == count) & (at == self.body.len())
    }
}

// Whether the directory is accepted, for any bytes and any span.
pub fn check(body: &[u8], span: u32) -> bool
    ensures { result ≡ directory_accepts body.now span }
{
    if body.len() < 4 {
        return false;
    }
    let n = segments(body);
    1 <= n
        && 4 + 16 * n <= body.len()
        && counted(span, fields::read16(body, 0)) & Directory::new(body, n).stand(span)
}
