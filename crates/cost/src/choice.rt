// What each form costs, and the cheapest of those allowed.
ghost use Rattle.std.specs.Prelude.{◌≡◌, false, ◌+◌, ◌*◌, ◌≤◌, min};
ghost use Rattle.model.specs.Tests.{pick};
ghost use Rattle.bitmap.specs.Body.{bitmap_length};
ghost use Rattle.stats.specs.Statistics.{Sound, span_of};
ghost use Rattle.cost.specs.Sizes.{depth_of};
ghost use Rattle.cost.specs.Forms.{Over, items_form, bitmap_form, dense_form, order_of, lex, key_of, lesser, least, local_form, payload, runs_form, plain_offers, whole_form};

use crate::Form;
use stats::Stats;

// The bytes of a bitmap of so many positions: a word for 64, and two bytes for 256.
pub fn bitmap_length(span: u64) -> u64
    requires { span ≤ 4294967295 }
    ensures { result ≡ bitmap_length span }
{
    let words = span.div_ceil(64);
    8 * words + 2 * words.div_ceil(4)
}

// The count of binary digits.
pub fn depth(n: u64) -> u32
    ensures { result ≡ depth_of n }
{
    64 - n.leading_zeros()
}

// A form with a depth of n items.
#[tactic(auto, unfolding(crate::specs::Forms::items_form))]
fn items(tag: u8, trimmed: bool, bytes: u64, n: u64) -> Form
    ensures { result ≡ items_form tag trimmed bytes n }
{
    Form {
        tag,
        trimmed,
        bytes,
        depth: depth(n),
        words: 0,
    }
}

// A bitmap of span positions after a header.
#[tactic(auto, unfolding(crate::specs::Forms::bitmap_form))]
fn bitmap(trimmed: bool, header: u64, span: u64) -> Form
    requires { (header ≤ 12) × (span ≤ 4294967295) }
    ensures { result ≡ bitmap_form trimmed header span }
{
    let words = span.div_ceil(64);
    Form {
        tag: 6,
        trimmed,
        bytes: header + bitmap_length(span),
        depth: depth(words.div_ceil(4)),
        words: 4,
    }
}

#[tactic(auto, unfolding(crate::specs::Forms::dense_form))]
fn dense() -> Form
    ensures { result ≡ dense_form }
{
    Form {
        tag: 1,
        trimmed: false,
        bytes: 0,
        depth: 0,
        words: 0,
    }
}

// The place of a tag in the code order.
#[tactic(auto, unfolding(crate::specs::Forms::order_of, model::specs::Tests::pick))]
fn order(tag: u8) -> u32
    ensures { result ≡ order_of tag }
{
    match tag {
        0 | 1 => 0,
        2 | 3 => 1,
        4 | 5 => 2,
        6 => 4,
        7 | 8 => 3,
        _ => 5,
    }
}

// What forms are compared by, the first place first: a plain form comes before a trimmed one.
fn key(f: Form) -> (u64, u32, u32, u32, bool)
    ensures { result ≡ (f.bytes, f.depth, f.words, order_of f.tag, f.trimmed) }
{
    (f.bytes, f.depth, f.words, order(f.tag), f.trimmed)
}

// Whether f costs less than g, by the first of the five where they differ.
fn costs_less(f: Form, g: Form) -> bool
    ensures { result ≡ lex (key_of f) (key_of g) }
{
    key(f) < key(g)
}

// The cheaper of two forms, the first where neither is.
#[tactic(auto, unfolding(crate::specs::Forms::lesser, model::specs::Tests::pick))]
fn cheaper(f: Form, g: Form) -> Form
    ensures { result ≡ lesser f g }
{
    if costs_less(g, f) { g } else { f }
}

// The same, where the second may be taken.
#[tactic(auto, unfolding(model::specs::Tests::pick))]
fn consider(f: Form, allowed: bool, g: Form) -> Form
    ensures { result ≡ pick allowed (lesser f g) f }
{
    if allowed { cheaper(f, g) } else { f }
}

// The positions from the first to the last.
fn local_span(s: Stats) -> u64
    requires { Sound s }
    ensures { (result ≡ span_of s) × (result ≤ 4294967295) }
{
    (s.last - s.first) as u64 + 1
}

// The cheapest form of a segment. Nothing is below the dense form, so that the others are not looked at where it is allowed.
pub fn local_form(s: Stats) -> Form
    requires { Sound s }
    ensures { result ≡ local_form s }
{
    let count = s.count as u64;
    let runs = s.runs as u64;
    let span = local_span(s);
    let holes = span - count;
    if holes == 0 {
        return dense();
    }
    let list = items(3, false, 2 * count, count);
    let b = cheaper(list, items(4, false, 6 * runs, runs));
    let d = cheaper(b, items(7, false, 2 * holes, holes));
    cheaper(d, bitmap(false, 0, span))
}

// The bytes of that form alone, which merging asks for at every pair: the fewest of a list, runs, the missing positions and a
// bitmap. Dense has no missing positions.
pub fn payload(s: Stats) -> u64
    requires { Sound s }
    ensures { (result ≡ payload s) × (result ≤ 8589934592) }
{
    let count = s.count as u64;
    let span = local_span(s);
    let few = (2 * count).min(6 * s.runs as u64);
    few.min(2 * (span - count)).min(bitmap_length(span))
}

// Runs of a whole row set: of 16-bit starts where every position has 16 bits, else of 32-bit starts.
#[tactic(auto, unfolding(crate::specs::Forms::runs_form, model::specs::Tests::pick))]
fn whole_runs(narrow: bool, runs: u64) -> Form
    requires { runs ≤ 4294967295 }
    ensures { result ≡ runs_form narrow runs }
{
    if narrow {
        items(4, false, 4 + 6 * runs, runs)
    } else {
        items(5, false, 4 + 8 * runs, runs)
    }
}

// The cheapest of the forms that start at position 0.
#[tactic(auto, unfolding(crate::specs::Forms::least, crate::specs::Forms::plain_offers, model::specs::Tests::pick))]
fn plain_form(s: Stats, span: u32) -> Form
    requires { Over s span }
    ensures { result ≡ least (items_form 2 false (4 * s.count) s.count) (plain_offers s span) }
{
    let count = s.count as u64;
    let absent = (span as u64) - count;
    let missing = items(7, false, 4 + 2 * absent, absent);
    let bits = bitmap(false, 4, span as u64);
    let narrow = s.last <= 65535;
    let a = consider(items(2, false, 4 * count, count), s.count == span, dense());
    let b = consider(a, narrow, items(3, false, 2 * count, count));
    let d = cheaper(b, whole_runs(narrow, s.runs as u64));
    consider(cheaper(d, bits), span <= 65535, missing)
}

// The cheapest form of a whole row set over a span.
#[tactic(auto, unfolding(crate::specs::Forms::least, crate::specs::Forms::whole_form, crate::specs::Forms::plain_offers, crate::specs::Forms::trimmed_offers, model::specs::Tests::pick))]
pub fn whole_form(s: Stats, span: u32) -> Form
    requires { Over s span }
    ensures { result ≡ whole_form s span }
{
    let local = local_span(s);
    let holes = local - s.count as u64;
    let missing = items(8, true, 8 + 2 * holes, holes);
    let bits = cheaper(plain_form(s, span), bitmap(true, 12, local));
    consider(bits, local <= 65535, missing)
}
