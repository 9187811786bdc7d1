// The local form missing: a list of the holes, each two bytes.

#![tactic(auto)]

ghost use Rattle.std.specs.Prelude.{◌≡◌, ◌+◌, ◌-◌, ◌*◌, ◌≤◌, ◌<◌, min, length, take};
ghost use Rattle.model.specs.Answers.{over, rank_in, ranks_in, Walked};
ghost use Rattle.model.specs.Lists.{moved};
ghost use Rattle.missing.specs.Missing.{missing_accepts, missing_place, holes_before, missing_select, missing_from, Stretched};

use lists::Items;
use model::Place;

#[tactic(auto, unfolding(crate::specs::Missing::missing_accepts, model::specs::Tests::both, model::specs::Lists::counted, fields::specs::Le::width_of))]
pub fn check(body: &[u8], span: u32, count: u16) -> bool
    ensures { result ≡ missing_accepts body.now span count }
{
    if 65535 < span || count == 0 || span < u32::from(count) {
        return false;
    }
    let holes = span as u16 - count;
    body.len() == usize::from(holes) * 2 && Items::new(body, holes, false).rises(span)
}

// Writes the positions from pos up to end behind the first at of out, as many as fit, and answers how many stand in out then.
fn up_to(out: &mut [u32], at: usize, base: u32, pos: u32, end: u32) -> usize
    requires { at ≤ length out.old }
    ensures { Stretched base pos end at out.old out.new result }
{
    let n = (end.saturating_sub(pos) as usize).min(out.len() - at);
    lists::fill(out, at, base, pos, n as u32);
    at + n
}

/// The positions of a span that are no rows, as they lie in front of a body: `count` of them, two bytes each.
#[derive(Clone, Copy)]
pub struct Holes<'a> {
    body: &'a [u8],
    count: u16,
    ghost sized: { count * 2 ≤ length body.now },
}

impl<'a> Holes<'a> {
    pub fn new(body: &'a [u8], count: u16) -> Holes<'a>
        requires { count * 2 ≤ length body.now }
        ensures body { result.body.now ≡ body.now }
        ensures count { result.count ≡ count }
    {
        Holes { body, count }
    }

    // On bytes that were not accepted more holes may be counted than there are positions, so no difference goes below 0.
    pub fn place(&self, span: u32, p: u32) -> Place
        ensures { result ≡ missing_place self.now.body.now span self.now.count p }
    {
        if span <= p {
            return Place {
                below: span.saturating_sub(u32::from(self.count)),
                present: false,
            };
        }
        let hole = Items::new(self.body, self.count, false).place(p);
        Place {
            below: p.saturating_sub(hole.below),
            present: !hole.present,
        }
    }

    // The rank of p, counted in the part that begins at base, or the number that stands for nothing.
    fn rank(&self, base: u32, span: u32, p: u32) -> u32
        ensures { result ≡ rank_in (missing_place self.now.body.now span self.now.count) base span p }
    {
        if model::lies_in(base, span, p) {
            model::rank_or(self.place(span, p - base))
        } else {
            u32::MAX
        }
    }

    // The same of many positions.
    pub fn ranks(&self, base: u32, span: u32, positions: &[u32], out: &mut [u32])
        requires { length positions.now ≤ length out.old }
        ensures { out.new ≡ over (ranks_in (missing_place self.now.body.now span self.now.count) base span positions.now) out.old }
    {
        model::answer_each(positions, out, |p| self.rank(base, span, p));
    }

    // How many holes lie before row k.
    fn before(&self, k: u16) -> u16
        ensures { result ≡ holes_before self.now.body.now self.now.count k }
    {
        search::upper(
            self.body,
            0,
            2,
            usize::from(self.count),
            u32::from(k),
            false,
            true,
        ) as u16
    }

    #[tactic(auto, unfolding(crate::specs::Missing::missing_select))]
    pub fn select(&self, k: u16) -> u32
        ensures { result ≡ missing_select self.now.body.now self.now.count k }
    {
        u32::from(k) + u32::from(self.before(k))
    }

    // Goes from hole to hole, beginning at the row that the search finds, and stops where out is full.
    pub fn walk(&self, span: u32, from: u16, base: u32, out: &mut [u32]) -> usize
        ensures { Walked (moved base (take (length out.old) (missing_from self.now.body.now span self.now.count from))) out.old out.new result }
    {
        let end = out.len();
        let first = self.before(from);
        let mut pos = u32::from(from) + u32::from(first);
        let mut at = 0;
        for i in first..self.count {
            if at == end {
                return at;
            }
            let hole = u32::from(fields::read16(self.body, usize::from(i) * 2));
            at = up_to(out, at, base, pos, hole);
            pos = hole + 1;
        }
        up_to(out, at, base, pos, span)
    }
}
