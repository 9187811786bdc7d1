// Tags 1 to 8: one local form, and the header before it.

#![tactic(auto)]

ghost use Rattle.std.specs.Prelude.{◌≡◌, ◌+◌, ◌-◌, ◌<◌, ◌≤◌, true, false, length};
ghost use Rattle.model.specs.Tests.{both};
ghost use Rattle.model.specs.Lists.{has};
ghost use Rattle.model.specs.Answers.{over, ranks_of, Walked};
ghost use Rattle.forms.specs.Forms.{local_accepts, local_names};
ghost use Rattle.single.specs.Single.{fit, header_of, view, bitmap_view, trimmed_missing_view, view_of, fields_ok, view_accepts, single_accepts, single_names, Readable, view_place, view_select, view_walk};

use model::Place;

// Where a body keeps its parts: the local form, whether it is trimmed, its base, span and count, and where its bytes start.
#[derive(Clone, Copy)]
pub struct View {
    pub form: u8,
    pub trimmed: bool,
    pub base: u32,
    pub span: u32,
    pub count: u16,
    pub offset: usize,
}

// The bytes that a header has at least.
#[tactic(auto, unfolding(crate::specs::Single::header_of, model::specs::Tests::pick))]
pub fn header(tag: u8) -> usize
    ensures { (result ≡ header_of tag) × (result ≤ 8) }
{
    match tag {
        4..=7 => 4,
        8 => 8,
        _ => 0,
    }
}

// A count that no u16 holds is no count.
#[tactic(auto, unfolding(crate::specs::Single::fit, model::specs::Tests::pick))]
fn fit(n: usize) -> u16
    ensures { result ≡ fit n }
{
    u16::try_from(n).unwrap_or(0)
}

// A local form that starts at position 0 and takes the whole span.
fn plain(form: u8, span: u32, count: u16, offset: usize) -> View
    ensures { result ≡ view form false 0 span count offset }
{
    View {
        form,
        trimmed: false,
        base: 0,
        span,
        count,
        offset,
    }
}

// A bitmap's header: trimmed where its flag is 1.
#[tactic(auto, unfolding(crate::specs::Single::bitmap_view, model::specs::Tests::pick))]
fn bitmap_view(span: u32, body: &[u8]) -> View
    requires { 4 ≤ length body.now }
    ensures { result ≡ bitmap_view span body.now }
{
    let count = fields::read16(body, 0);
    if body[2] != 1 {
        return plain(6, span, count, 4);
    }
    if body.len() < 12 {
        return plain(6, 0, count, 12);
    }
    View {
        form: 6,
        trimmed: true,
        base: fields::read32(body, 4),
        span: fields::read32(body, 8),
        count,
        offset: 12,
    }
}

#[tactic(auto, unfolding(crate::specs::Single::trimmed_missing_view))]
fn trimmed_missing_view(body: &[u8]) -> View
    requires { 8 ≤ length body.now }
    ensures { result ≡ trimmed_missing_view body.now }
{
    View {
        form: 7,
        trimmed: true,
        base: fields::read32(body, 0),
        span: u32::from(fields::read16(body, 4)),
        count: fields::read16(body, 6),
        offset: 8,
    }
}

// Where the body of a tag keeps its parts.
#[tactic(auto, unfolding(crate::specs::Single::header_of, crate::specs::Single::view_of, model::specs::Tests::pick))]
pub fn parse(tag: u8, span: u32, body: &[u8]) -> View
    requires { header_of tag ≤ length body.now }
    ensures { result ≡ view_of tag span body.now }
{
    match tag {
        1 => plain(1, span, fit(span as usize), 0),
        2 => plain(2, span, fit(body.len() / 4), 0),
        3 => plain(3, span, fit(body.len() / 2), 0),
        4 | 5 | 7 => plain(tag, span, fields::read16(body, 0), 4),
        6 => bitmap_view(span, body),
        8 => trimmed_missing_view(body),
        _ => plain(0, span, 0, 0),
    }
}

// Whether the fields beside the count are right: the number of runs, a bitmap's flag and zero, the zero of a missing form.
#[tactic(auto, unfolding(crate::specs::Single::header_of, crate::specs::Single::fields_ok, model::specs::Tests::pick, model::specs::Tests::both))]
fn fields_ok(tag: u8, body: &[u8]) -> bool
    requires { header_of tag ≤ length body.now }
    ensures { result ≡ fields_ok tag body.now }
{
    match tag {
        4 => usize::from(fields::read16(body, 2)) == (body.len() - 4) / 6,
        5 => usize::from(fields::read16(body, 2)) == (body.len() - 4) / 8,
        6 => (body[2] <= 1) & (body[3] == 0),
        7 => fields::read16(body, 2) == 0,
        _ => true,
    }
}

// Whether both ends of an accepted local form are present.
fn ends(form: u8, part: &[u8], span: u32, count: u16) -> bool
    requires { local_accepts form part.now span count ≡ true }
    ensures { result ≡ both (has (local_names form part.now span count) 0) (has (local_names form part.now span count) (span - 1)) }
{
    let first = forms::place(form, part, span, count, 0);
    let last = forms::place(form, part, span, count, span - 1);
    first.present & last.present
}

// Whether the header is there, and the local form lies in the span and is accepted.
fn view_ok(v: View, span: u32, body: &[u8]) -> bool
    ensures { result ≡ view_accepts v span body.now }
{
    if body.len() < v.offset || u64::from(span) < u64::from(v.base) + u64::from(v.span) {
        return false;
    }
    let part = &body[v.offset..];
    forms::check(v.form, part, v.span, v.count)
        && (!v.trimmed || ends(v.form, part, v.span, v.count))
}

// Whether a body of one of the tags 1 to 8 is accepted. Any other tag has no local form, and is refused.
pub fn check(tag: u8, span: u32, body: &[u8]) -> bool
    ensures { result ≡ single_accepts tag span body.now }
{
    header(tag) <= body.len() && fields_ok(tag, body) && view_ok(parse(tag, span, body), span, body)
}

/// A body whose view has the length that its readers want: any that is accepted.
#[derive(Clone, Copy)]
pub struct Single<'a> {
    view: View,
    body: &'a [u8],
    ghost readable: { Readable view body.now },
}

impl<'a> Single<'a> {
    pub fn new(view: View, body: &'a [u8]) -> Single<'a>
        requires { Readable view body.now }
        ensures view { result.view ≡ view }
        ensures body { result.body.now ≡ body.now }
    {
        Single { view, body }
    }

    pub fn count(&self) -> u16
        ensures { result ≡ self.now.view.count }
    {
        self.view.count
    }

    // Where p stands among the rows of the local form.
    pub fn place(&self, p: u32) -> Place
        ensures { result ≡ view_place self.now.view self.now.body.now p }
    {
        let v = self.view;
        let Some(inside) = p.checked_sub(v.base) else {
            return Place {
                below: 0,
                present: false,
            };
        };
        forms::place(v.form, &self.body[v.offset..], v.span, v.count, inside)
    }

    // The row of ordinal k.
    pub fn select(&self, k: u16) -> u32
        requires { k < self.now.view.count }
        ensures { result ≡ view_select self.now.view self.now.body.now k }
    {
        let v = self.view;
        v.base.wrapping_add(forms::select(v.form, &self.body[v.offset..], v.span, v.count, k))
    }

    // The rows from an ordinal on, as many as fit or remain.
    pub fn walk(&self, from: u16, out: &mut [u32]) -> usize
        ensures { Walked (view_walk self.now.view self.now.body.now from (length out.old)) out.old out.new result }
    {
        let v = self.view;
        let part = &self.body[v.offset..];
        forms::walk(v.form, part, v.span, v.count, from, v.base, out)
    }
}

// Writes the rank of each position in an accepted body, or the number that stands for nothing. The header is read once.
pub fn ranks(tag: u8, span: u32, body: &[u8], positions: &[u32], out: &mut [u32])
    requires { (single_accepts tag span body.now ≡ true) × (length positions.now ≤ length out.old) }
    ensures { out.new ≡ over (ranks_of (single_names tag span body.now) positions.now) out.old }
{
    let v = parse(tag, span, body);
    let part = &body[v.offset..];
    forms::ranks(v.form, part, v.span, v.count, v.base, positions, out);
}
