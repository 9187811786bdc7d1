// The local forms by tag: 1 dense, 2 and 3 lists, 4 and 5 runs, 6 bitmap, 7 missing. Whole bodies and segments are made of them.

#![tactic(auto)]

ghost use Rattle.std.specs.Prelude.{◌≡◌, ◌-◌, ◌*◌, ◌/◌, ◌<◌, ◌≤◌, true, length};
ghost use Rattle.fields.specs.Le.{width_of};
ghost use Rattle.model.specs.Answers.{over, ranks_in, Walked};
ghost use Rattle.runs.specs.Runs.{stride_of};
ghost use Rattle.forms.specs.Forms.{local_accepts, local_sized, local_place, local_select, local_walk};

use bitmap::Bitmap;
use lists::Items;
use missing::Holes;
use model::Place;
use runs::Runs;

#[tactic(auto, unfolding(crate::specs::Forms::local_accepts, crate::specs::Forms::by_tag, model::specs::Tests::pick, fields::specs::Le::width_of))]
pub fn check(tag: u8, body: &[u8], span: u32, count: u16) -> bool
    ensures { result ≡ local_accepts tag body.now span count }
{
    match tag {
        1 => lists::dense_check(body, span, count),
        2 => lists::check(body, span, count, true),
        3 => lists::check(body, span, count, false),
        4 => runs::check(body, span, count, false),
        5 => runs::check(body, span, count, true),
        6 => bitmap::check(body, span, count),
        7 => missing::check(body, span, count),
        _ => false,
    }
}

// The runs that fill a body.
fn table(body: &[u8], wide: bool) -> Runs
    ensures body { result.body.now ≡ body.now }
    ensures runs { result.runs ≡ length body.now / stride_of (width_of wide) }
    ensures wide { result.wide ≡ wide }
{
    Runs::new(body, runs::runs_in(body.len(), wide), wide)
}

// The holes between so many rows.
fn holes(body: &[u8], span: u32, count: u16) -> Holes
    requires { (span ≤ 65535) × (count ≤ span) × ((span - count) * 2 ≤ length body.now) }
    ensures body { result.body.now ≡ body.now }
    ensures count { result.count ≡ span - count }
{
    Holes::new(body, span as u16 - count)
}

// Where p stands.
#[tactic(auto, unfolding(crate::specs::Forms::local_place, crate::specs::Forms::by_tag, model::specs::Tests::pick, fields::specs::Le::width_of, runs::specs::Runs::run_count))]
pub fn place(tag: u8, body: &[u8], span: u32, count: u16, p: u32) -> Place
    requires { local_sized tag (length body.now) span count ≡ true }
    ensures { result ≡ local_place tag body.now span count p }
{
    match tag {
        1 => lists::dense_place(span, p),
        2 => Items::new(body, count, true).place(p),
        3 => Items::new(body, count, false).place(p),
        4 => table(body, false).place(p),
        5 => table(body, true).place(p),
        6 => Bitmap::new(body, span).place(count, p),
        7 => holes(body, span, count).place(span, p),
        _ => Place {
            below: 0,
            present: false,
        },
    }
}

// Writes the rank of each position in the part that begins at base, or the number that stands for nothing. The tag is asked once.
#[tactic(auto, unfolding(crate::specs::Forms::local_place, crate::specs::Forms::by_tag, model::specs::Tests::pick, fields::specs::Le::width_of, runs::specs::Runs::run_count))]
pub fn ranks(
    tag: u8,
    body: &[u8],
    span: u32,
    count: u16,
    base: u32,
    positions: &[u32],
    out: &mut [u32],
)
    requires { (local_accepts tag body.now span count ≡ true) × (length positions.now ≤ length out.old) }
    ensures { out.new ≡ over (ranks_in (local_place tag body.now span count) base span positions.now) out.old }
{
    match tag {
        1 => lists::dense_ranks(base, span, positions, out),
        2 => Items::new(body, count, true).ranks(base, span, positions, out),
        3 => Items::new(body, count, false).ranks(base, span, positions, out),
        4 => table(body, false).ranks(base, span, positions, out),
        5 => table(body, true).ranks(base, span, positions, out),
        6 => Bitmap::new(body, span).ranks(count, base, positions, out),
        7 => holes(body, span, count).ranks(base, span, positions, out),
        _ => {}
    }
}

// The position of ordinal k.
#[tactic(auto, unfolding(crate::specs::Forms::local_select, crate::specs::Forms::by_tag, model::specs::Tests::pick, fields::specs::Le::width_of, runs::specs::Runs::run_count))]
pub fn select(tag: u8, body: &[u8], span: u32, count: u16, k: u16) -> u32
    requires { (local_sized tag (length body.now) span count ≡ true) × (k < count) }
    ensures { result ≡ local_select tag body.now span count k }
{
    match tag {
        1 => u32::from(k),
        2 => Items::new(body, count, true).select(k),
        3 => Items::new(body, count, false).select(k),
        4 => table(body, false).select(k),
        5 => table(body, true).select(k),
        6 => Bitmap::new(body, span).select(k),
        7 => holes(body, span, count).select(k),
        _ => 0,
    }
}

// Writes the positions from an ordinal on, counted from base, as many as fit or remain, and answers how many.
#[tactic(auto, unfolding(crate::specs::Forms::local_walk, crate::specs::Forms::by_tag, model::specs::Tests::pick, fields::specs::Le::width_of, runs::specs::Runs::run_count))]
pub fn walk(
    tag: u8,
    body: &[u8],
    span: u32,
    count: u16,
    from: u16,
    base: u32,
    out: &mut [u32],
) -> usize
    requires { local_sized tag (length body.now) span count ≡ true }
    ensures { Walked (local_walk tag body.now span count from base (length out.old)) out.old out.new result }
{
    match tag {
        1 => lists::dense_walk(count, from, base, out),
        2 => Items::new(body, count, true).walk(from, base, out),
        3 => Items::new(body, count, false).walk(from, base, out),
        4 => table(body, false).walk(from, base, out),
        5 => table(body, true).walk(from, base, out),
        6 => Bitmap::new(body, span).walk(from, base, out),
        7 => holes(body, span, count).walk(span, from, base, out),
        _ => 0,
    }
}
