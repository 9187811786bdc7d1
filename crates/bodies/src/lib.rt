// A body of any tag: whether it is accepted, and what an accepted one answers. Tag 9 is a directory of parts, every other tag one local form.

#![tactic(auto)]

ghost use Rattle.std.specs.Prelude.{◌≡◌, ◌^◌, ◌<◌, ◌≤◌, true, is_some, IfSome, length, get_or};
ghost use Rattle.fields.specs.Le.{Bytes};
ghost use Rattle.model.specs.Lists.{place_of, walk_of};
ghost use Rattle.model.specs.Answers.{over, ranks_of, Walked};
ghost use Rattle.single.specs.Single.{view_of};
ghost use Rattle.bodies.specs.Bodies.{accepts, names};

use model::Place;
use segmented::Segmented;
use single::Single;

pub fn check(tag: u8, span: u32, body: &[u8]) -> bool
    ensures { result ≡ accepts tag span body.now }
{
    if tag == 9 {
        segmented::check(span, body)
    } else {
        single::check(tag, span, body)
    }
}

// A body that is accepted under its tag. `narrow` and `bytes` are what the types of the fields say.
#[derive(Clone, Copy)]
pub struct Accepted<'a> {
    tag: u8,
    span: u32,
    body: &'a [u8],
    ghost narrow: { span < 2 ^ 32 },
    ghost bytes: { Bytes body.now },
    ghost accepted: { accepts tag span body.now ≡ true },
}

// The body, if it is accepted.
pub fn accept<'a>(tag: u8, span: u32, body: &'a [u8]) -> Option<Accepted<'a>>
    ensures accepted { is_some result ≡ accepts tag span body.now }
    ensures same { IfSome result (λ a. (a.tag ≡ tag) × (a.span ≡ span) × (a.body.now ≡ body.now)) }
{
    if check(tag, span, body) {
        Some(Accepted::new(tag, span, body))
    } else {
        None
    }
}

impl<'a> Accepted<'a> {
    // Of a body that is known to be accepted, as one that its caller checked before: it is not checked again.
    pub fn new(tag: u8, span: u32, body: &'a [u8]) -> Accepted<'a>
        requires { accepts tag span body.now ≡ true }
        ensures tag { result.tag ≡ tag }
        ensures span { result.span ≡ span }
        ensures body { result.body.now ≡ body.now }
    {
        Accepted { tag, span, body }
    }

    // The one local form of a body of another tag than 9.
    fn single(&self) -> Single
        requires { self.now.tag ≡ 9 → ⊥ }
        ensures view { result.view ≡ view_of self.now.tag self.now.span self.now.body.now }
        ensures body { result.body.now ≡ self.now.body.now }
    {
        Single::new(single::parse(self.tag, self.span, self.body), self.body)
    }

    pub fn count(&self) -> u16
        ensures { result ≡ length (names self.now.tag self.now.span self.now.body.now) }
    {
        if self.tag == 9 {
            fields::read16(self.body, 0)
        } else {
            self.single().count()
        }
    }

    pub fn place(&self, p: u32) -> Place
        ensures { result ≡ place_of (names self.now.tag self.now.span self.now.body.now) p }
    {
        if self.tag == 9 {
            Segmented::new(self.span, self.body).place(p)
        } else {
            self.single().place(p)
        }
    }

    // Writes the rank of each position, or the number that stands for nothing.
    pub fn ranks(&self, positions: &[u32], out: &mut [u32])
        requires { length positions.now ≤ length out.old }
        ensures { out.new ≡ over (ranks_of (names self.now.tag self.now.span self.now.body.now) positions.now) out.old }
    {
        if self.tag == 9 {
            Segmented::new(self.span, self.body).ranks(positions, out)
        } else {
            single::ranks(self.tag, self.span, self.body, positions, out)
        }
    }

    pub fn select(&self, k: u16) -> u32
        requires { k < length (names self.now.tag self.now.span self.now.body.now) }
        ensures { result ≡ get_or (names self.now.tag self.now.span self.now.body.now) k 0 }
    {
        if self.tag == 9 {
            Segmented::new(self.span, self.body).select(k)
        } else {
            self.single().select(k)
        }
    }

    pub fn walk(&self, k: u16, out: &mut [u32]) -> usize
        ensures { Walked (walk_of (names self.now.tag self.now.span self.now.body.now) k (length out.old)) out.old out.new result }
    {
        if self.tag == 9 {
            Segmented::new(self.span, self.body).walk(k, out)
        } else {
            self.single().walk(k, out)
        }
    }
}
