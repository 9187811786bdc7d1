// The local forms dense and list. A list is read at either width by the same functions: `wide` is 4 bytes an item, else 2.

#![tactic(auto)]

ghost use Rattle.std.specs.Prelude.{◌≡◌, ◌+◌, ◌-◌, ◌*◌, ◌<◌, ◌≤◌, min, length};
ghost use Rattle.fields.specs.Le.{width_of};
ghost use Rattle.std.proofs.lemmas.List.Edits.{sets};
ghost use Rattle.model.specs.Answers.{over, rank_in, ranks_in, Walked};
ghost use Rattle.model.specs.Lists.{range, place_of, walk_of, moved};
ghost use Rattle.lists.specs.Lists.{item, rises_below, list_accepts, list_names, list_place, dense_accepts, dense_names};

use model::Place;

// Item i of any bytes that hold it. A count of 16 bits bounds the items of `Items`; the bytes may hold more.
pub fn item(body: &[u8], i: usize, wide: bool) -> u32
    requires { (i + 1) * width_of wide ≤ length body.now }
    ensures { result ≡ item (width_of wide) body.now i }
{
    fields::field(body, i * fields::width(wide), wide)
}

// Item k of any bytes that hold it: k = 65535 too, which is below no count of 16 bits.
pub fn select(body: &[u8], k: u16, wide: bool) -> u32
    requires { (k + 1) * width_of wide ≤ length body.now }
    ensures { result ≡ item (width_of wide) body.now k }
{
    item(body, usize::from(k), wide)
}

/// The items of a list, which lie in front of a body: `count` of them, 4 bytes each where `wide`, else 2.
#[derive(Clone, Copy)]
pub struct Items<'a> {
    body: &'a [u8],
    count: u16,
    wide: bool,
    ghost sized: { count * width_of wide ≤ length body.now },
}

impl<'a> Items<'a> {
    pub fn new(body: &'a [u8], count: u16, wide: bool) -> Items<'a>
        requires { count * width_of wide ≤ length body.now }
        ensures body { result.body.now ≡ body.now }
        ensures count { result.count ≡ count }
        ensures wide { result.wide ≡ wide }
    {
        Items { body, count, wide }
    }

    // Item i.
    pub fn item(&self, i: usize) -> u32
        requires { i < self.now.count }
        ensures { result ≡ item (width_of self.now.wide) self.now.body.now i }
    {
        item(self.body, i, self.wide)
    }

    // Whether the items rise and stay below the span: the last of rising items is the largest. No early exit, so that the loop vectorizes.
    pub fn rises(&self, span: u32) -> bool
        ensures { result ≡ rises_below (item (width_of self.now.wide) self.now.body.now) span self.now.count }
    {
        if self.count == 0 {
            return true;
        }
        let last = usize::from(self.count) - 1;
        let mut ok = true;
        for i in 0..last {
            ok &= self.item(i) < self.item(i + 1);
        }
        ok & (self.item(last) < span)
    }

    // Where p stands: the search finds how many items are at most p, and the last of them may be p.
    #[tactic(auto, using(search::proofs::Laws::found_within))]
    pub fn place(&self, p: u32) -> Place
        ensures { result ≡ list_place (width_of self.now.wide) self.now.body.now self.now.count p }
    {
        let k = search::upper(
            self.body,
            0,
            fields::width(self.wide),
            usize::from(self.count),
            p,
            self.wide,
            false,
        );
        let present = 0 < k && self.item(k - 1) == p;
        Place {
            below: k as u32 - u32::from(present),
            present,
        }
    }

    // The rank of p, counted in the part that begins at base, or the number that stands for nothing.
    fn rank(&self, base: u32, span: u32, p: u32) -> u32
        ensures { result ≡ rank_in (list_place (width_of self.now.wide) self.now.body.now self.now.count) base span p }
    {
        if model::lies_in(base, span, p) {
            model::rank_or(self.place(p - base))
        } else {
            u32::MAX
        }
    }

    // The same of many positions.
    pub fn ranks(&self, base: u32, span: u32, positions: &[u32], out: &mut [u32])
        requires { length positions.now ≤ length out.old }
        ensures { out.new ≡ over (ranks_in (list_place (width_of self.now.wide) self.now.body.now self.now.count) base span positions.now) out.old }
    {
        model::answer_each(positions, out, |p| self.rank(base, span, p));
    }

    pub fn select(&self, k: u16) -> u32
        requires { k < self.now.count }
        ensures { result ≡ item (width_of self.now.wide) self.now.body.now k }
    {
        select(self.body, k, self.wide)
    }

    pub fn walk(&self, from: u16, base: u32, out: &mut [u32]) -> usize
        ensures { Walked (moved base (walk_of (list_names (width_of self.now.wide) self.now.body.now self.now.count) from (length out.old))) out.old out.new result }
    {
        let start = usize::from(from);
        let n = room(self.count, from, out.len());
        for i in 0..n {
            out[i] = base.wrapping_add(self.item(start + i));
        }
        n
    }
}

#[tactic(auto, unfolding(crate::specs::Lists::list_accepts, model::specs::Tests::both, model::specs::Lists::counted))]
pub fn check(body: &[u8], span: u32, count: u16, wide: bool) -> bool
    ensures { result ≡ list_accepts (width_of wide) body.now span count }
{
    body.len() == usize::from(count) * fields::width(wide)
        && 0 < count
        && u32::from(count) <= span
        && Items::new(body, count, wide).rises(span)
}

// How many positions a walk from an ordinal writes: as many as fit or remain.
fn room(count: u16, from: u16, len: usize) -> usize
    ensures { result ≡ min len (count - from) }
{
    len.min(usize::from(count.saturating_sub(from)))
}

// Writes the positions pos, pos + 1, .. into out from at on, counted from base.
pub fn fill(out: &mut [u32], at: usize, base: u32, pos: u32, size: u32)
    requires { at + size ≤ length out.old }
    ensures { out.new ≡ sets out.old at (moved base (range pos size)) }
{
    let first = base.wrapping_add(pos);
    for i in 0..size {
        out[at + i as usize] = first.wrapping_add(i);
    }
}

#[tactic(auto, unfolding(crate::specs::Lists::dense_accepts, model::specs::Tests::both, model::specs::Lists::counted))]
pub fn dense_check(body: &[u8], span: u32, count: u16) -> bool
    ensures { result ≡ dense_accepts body.now span count }
{
    body.is_empty() && u32::from(count) == span && 0 < count
}

pub fn dense_place(span: u32, p: u32) -> Place
    ensures { result ≡ place_of (dense_names span) p }
{
    Place {
        below: p.min(span),
        present: p < span,
    }
}

// The rank of p, counted in the part that begins at base, or the number that stands for nothing.
fn dense_rank(base: u32, span: u32, p: u32) -> u32
    ensures { result ≡ rank_in (place_of (dense_names span)) base span p }
{
    if model::lies_in(base, span, p) {
        model::rank_or(dense_place(span, p - base))
    } else {
        u32::MAX
    }
}

// The same of many positions.
pub fn dense_ranks(base: u32, span: u32, positions: &[u32], out: &mut [u32])
    requires { length positions.now ≤ length out.old }
    ensures { out.new ≡ over (ranks_in (place_of (dense_names span)) base span positions.now) out.old }
{
    model::answer_each(positions, out, |p| dense_rank(base, span, p));
}

pub fn dense_walk(count: u16, from: u16, base: u32, out: &mut [u32]) -> usize
    ensures { Walked (moved base (walk_of (dense_names count) from (length out.old))) out.old out.new result }
{
    let n = room(count, from, out.len());
    fill(out, 0, base, u32::from(from), n as u32);
    n
}
