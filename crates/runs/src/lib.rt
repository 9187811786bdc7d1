// The local form runs. A run is read at either width by the same functions: its start has 4 bytes where `wide`, else 2.

#![tactic(auto)]

ghost use Rattle.std.specs.Prelude.{◌≡◌, ◌+◌, ◌-◌, ◌*◌, ◌/◌, ◌^◌, ◌<◌, ◌≤◌, min, length, take};
ghost use Rattle.std.proofs.lemmas.List.Edits.{sets};
ghost use Rattle.model.specs.Lists.{range, moved};
ghost use Rattle.model.specs.Answers.{over, rank_in, ranks_in, Walked};
ghost use Rattle.fields.specs.Le.{width_of};
ghost use Rattle.runs.specs.Runs.{stride_of, fits, most_of, runs_stand, runs_accepts};
ghost use Rattle.runs.specs.Asked.{entry_of, starts_to, before_to, place_in, runs_place, nth_of, runs_select, runs_from, runs_walk};

use model::Place;

// Start, length and rows before of a run.
#[derive(Clone, Copy)]
pub struct Entry {
    pub start: u32,
    pub size: u16,
    pub before: u16,
}

// How many entries so many bytes hold.
#[tactic(auto, unfolding(fields::specs::Le::width_of))]
pub fn runs_in(bytes: usize, wide: bool) -> usize
    ensures { result ≡ bytes / stride_of (width_of wide) }
{
    if wide { bytes / 8 } else { bytes / 6 }
}

// Where entry i lies. Each arm multiplies by a number, so that neither asks for a product of variables.
#[tactic(auto, unfolding(fields::specs::Le::width_of))]
fn offset(i: usize, wide: bool) -> usize
    requires { i * stride_of (width_of wide) < 2 ^ 64 }
    ensures { result ≡ i * stride_of (width_of wide) }
{
    if wide { i * 8 } else { i * 6 }
}

// The most that a run's end may be.
#[tactic(auto, unfolding(fields::specs::Le::width_of, crate::specs::Runs::most_of))]
fn most(span: u32, wide: bool) -> u64
    ensures { result ≡ most_of (width_of wide) span }
{
    let span = u64::from(span);
    if wide { span } else { span.min(65536) }
}

// Whether a run starts at `low` or after, has a row, ends at `most` or before, and states `rows` before it.
#[tactic(auto, using(crate::proofs::Table::fits_is))]
fn fits(e: Entry, low: u64, rows: u64, most: u64) -> bool
    ensures { result ≡ fits e.start e.size e.before low rows most }
{
    let start = u64::from(e.start);
    let end = start + u64::from(e.size);
    (low <= start) & (1 <= e.size) & (end <= most) & (u64::from(e.before) == rows)
}

// The place of p by the last run that starts at p or before.
#[tactic(auto, unfolding(crate::specs::Asked::place_in))]
fn place_in(e: Entry, p: u32) -> Place
    requires { e.start ≤ p }
    ensures { result ≡ place_in e p }
{
    let past = p - e.start;
    let size = u32::from(e.size);
    Place {
        below: u32::from(e.before) + past.min(size),
        present: past < size,
    }
}

// The position of ordinal k in its run.
#[tactic(auto, unfolding(crate::specs::Asked::nth_of))]
fn nth(e: Entry, k: u16) -> u32
    requires { e.before ≤ k }
    ensures { result ≡ nth_of e k }
{
    e.start.wrapping_add(u32::from(k - e.before))
}

// Writes a run without its first `skip` positions from out[at] on, as much as fits, and answers how much.
fn write_run(e: Entry, skip: u16, base: u32, out: &mut [u32], at: usize) -> usize
    requires { at ≤ length out.old }
    ensures { (result ≡ min (e.size - skip) (length out.old - at)) × (out.new ≡ sets out.old at (moved base (range (e.start + skip) result))) }
{
    let n = usize::from(e.size.saturating_sub(skip)).min(out.len() - at);
    let first = base.wrapping_add(e.start).wrapping_add(u32::from(skip));
    for j in 0..n {
        out[at + j] = first.wrapping_add(j as u32);
    }
    n
}

// A table of so many runs, inside its bytes.
#[derive(Clone, Copy)]
pub struct Runs<'a> {
    pub body: &'a [u8],
    pub runs: usize,
    pub wide: bool,
    ghost sized: { runs * stride_of (width_of wide) ≤ length body.now },
}

impl<'a> Runs<'a> {
    pub fn new(body: &'a [u8], runs: usize, wide: bool) -> Runs<'a>
        requires { runs * stride_of (width_of wide) ≤ length body.now }
        ensures body { result.body.now ≡ body.now }
        ensures runs { result.runs ≡ runs }
        ensures wide { result.wide ≡ wide }
    {
        Runs { body, runs, wide }
    }

    // Entry i.
    pub fn read(&self, i: usize) -> Entry
        requires { i < self.now.runs }
        ensures { result ≡ entry_of (width_of self.now.wide) self.now.body.now i }
    {
        let at = offset(i, self.wide);
        let w = fields::width(self.wide);
        Entry {
            start: fields::field(self.body, at, self.wide),
            size: fields::read16(self.body, w + at),
            before: fields::read16(self.body, w + 2 + at),
        }
    }

    // Whether the runs stand apart within `end`, each states the rows before it, and all have count rows. No early exit.
    fn stand(&self, end: u64, count: u16) -> bool
        requires { self.now.runs ≤ 65535 }
        ensures { result ≡ runs_stand (width_of self.now.wide) self.now.body.now end count self.now.runs }
    {
        let mut ok = true;
        let mut low: u64 = 0;
        let mut rows: u64 = 0;
        for i in 0..self.runs {
            let e = self.read(i);
            let start = u64::from(e.start);
            let size = u64::from(e.size);
            ok &= fits(e, low, rows, end);
            low = start + size + 1;
            rows += size;
        }
        ok & (rows == u64::from(count))
    }

    // Where the search ends for a run that starts after p.
    #[tactic(auto, unfolding(crate::specs::Asked::starts_to))]
    fn starts_to(&self, p: u32) -> usize
        ensures { result ≡ starts_to (width_of self.now.wide) self.now.body.now self.now.runs p }
    {
        search::upper(
            self.body,
            0,
            fields::width(self.wide) + 4,
            self.runs,
            p,
            self.wide,
            false,
        )
    }

    // Where the search ends for a run that states more than k rows before it.
    fn before_to(&self, k: u16) -> usize
        ensures { result ≡ before_to (width_of self.now.wide) self.now.body.now self.now.runs k }
    {
        let w = fields::width(self.wide);
        search::upper(
            self.body,
            w + 2,
            w + 4,
            self.runs,
            u32::from(k),
            false,
            false,
        )
    }

    // The rows below p, and whether p is one.
    pub fn place(&self, p: u32) -> Place
        ensures { result ≡ runs_place (width_of self.now.wide) self.now.body.now self.now.runs p }
    {
        let found = self.starts_to(p);
        if found == 0 {
            return Place {
                below: 0,
                present: false,
            };
        }
        place_in(self.read(found - 1), p)
    }

    // The rank of p, counted in the part that begins at base. It goes as `place` does; with a place kept between, a query took twice the time.
    fn rank(&self, base: u32, span: u32, p: u32) -> u32
        ensures { result ≡ rank_in (runs_place (width_of self.now.wide) self.now.body.now self.now.runs) base span p }
    {
        if !model::lies_in(base, span, p) {
            return 4294967295;
        }
        let found = self.starts_to(p - base);
        if found == 0 {
            return 4294967295;
        }
        model::rank_or(place_in(self.read(found - 1), p - base))
    }

    // The same of many positions.
    pub fn ranks(&self, base: u32, span: u32, positions: &[u32], out: &mut [u32])
        requires { length positions.now ≤ length out.old }
        ensures { out.new ≡ over (ranks_in (runs_place (width_of self.now.wide) self.now.body.now self.now.runs) base span positions.now) out.old }
    {
        model::answer_each(positions, out, |p| self.rank(base, span, p));
    }

    // The position of ordinal k.
    pub fn select(&self, k: u16) -> u32
        ensures { result ≡ runs_select (width_of self.now.wide) self.now.body.now self.now.runs k }
    {
        let found = self.before_to(k);
        if found == 0 {
            return 0;
        }
        nth(self.read(found - 1), k)
    }

    // Writes the positions from run `first` on without its first `skip`, as many as fit, and answers how many.
    fn walk_from(&self, first: usize, skip: u16, base: u32, out: &mut [u32]) -> usize
        ensures { Walked (moved base (take (length out.old) (runs_from (width_of self.now.wide) self.now.body.now (self.now.runs - first) first skip))) out.old out.new result }
    {
        let end = out.len();
        let mut left = skip;
        let mut done = 0;
        for i in first..self.runs {
            done += write_run(self.read(i), left, base, out, done);
            if done == end {
                return done;
            }
            left = 0;
        }
        done
    }

    // Fills out with the positions of the ordinals from `from` on, counted from base, as many as fit or remain, and answers how many.
    // The first run is searched for; from there on the walk goes run by run.
    pub fn walk(&self, from: u16, base: u32, out: &mut [u32]) -> usize
        ensures { Walked (runs_walk (width_of self.now.wide) self.now.body.now self.now.runs from base (length out.old)) out.old out.new result }
    {
        let found = self.before_to(from);
        if found == 0 {
            return 0;
        }
        let skip = from - self.read(found - 1).before;
        self.walk_from(found - 1, skip, base, out)
    }
}

// Whether the body is accepted. One of more runs than count has too many rows: it is refused unread, and the sum of rows cannot wrap.
pub fn check(body: &[u8], span: u32, count: u16, wide: bool) -> bool
    ensures { result ≡ runs_accepts (width_of wide) body.now span count }
{
    let runs = runs_in(body.len(), wide);
    let table = Runs::new(body, runs, wide);
    0 < count
        && u32::from(count) <= span
        && runs <= usize::from(count)
        && offset(runs, wide) == body.len()
        && table.stand(most(span, wide), count)
}
