// Planning: rows to the shortest body. The seeds are merged in the lent workspace, the cheapest form is chosen, and its body written.

#![tactic(auto)]

ghost use Rattle.std.specs.Prelude.{◌≡◌, List, [], ℕ, ◌≤◌, leb, length, map};
ghost use Rattle.model.specs.Refusals.{number_in};
ghost use Rattle.model.specs.Tests.{pick, both};
ghost use Rattle.cost.specs.Forms.{lex};
ghost use Rattle.planning.specs.Bodies.{choice_key, chosen};
ghost use Rattle.planning.specs.Planning.{late_number, planned_values, plan_of, plan_out, plan_work};
ghost use Rattle.plan.specs.Plans.{values_of, planned_of};
ghost use Rattle.plan.specs.Merging.{Tested, Mergeable, Decided};

pub use model::Refusal;
use seeds::Rises;

// An accepted plan: its tag, the length of its body, the segments after merging, and the offers taken.
#[derive(Clone, Copy)]
pub struct Body {
    pub tag: u8,
    pub length: u16,
    pub segments: u16,
    pub offers: u32,
}

// The form that is chosen, what the segments come to, and the offers that merging took.
#[derive(Clone, Copy)]
pub struct Decision {
    pub form: cost::Form,
    pub sum: assemble::Summary,
    pub offers: usize,
}

// ---- choosing

// Whether the segmented body is below the whole form by bytes, segments, depth, words, order; a whole form counts one segment.
// By order a segmented body is below none.
fn wins(segmented: cost::Form, segments: usize, whole: cost::Form) -> bool
    requires { segmented.tag ≡ 9 }
    ensures { result ≡ lex (choice_key segmented segments) (choice_key whole 1) }
{
    (segmented.bytes, segments, segmented.depth, segmented.words)
        < (whole.bytes, 1, whole.depth, whole.words)
}

#[tactic(auto, unfolding(planning::specs::Bodies::chosen, model::specs::Tests::pick))]
fn choose(whole: cost::Form, segmented: cost::Form, segments: usize) -> cost::Form
    requires { segmented.tag ≡ 9 }
    ensures { result ≡ chosen whole segmented segments }
{
    if wins(segmented, segments, whole) {
        segmented
    } else {
        whole
    }
}

// Merges the seeds that stand in the workspace, and chooses the form.
fn decide(w: &mut [u32], n: usize, span: u32) -> Decision
    requires { (xs : List ℕ) × (ends : List ℕ) × Mergeable xs ends span n w.old }
    ensures { (xs ends : List ℕ) → Mergeable xs ends span n w.old → Decided xs ends span n w.new result }
{
    let offers = merge::join_seeds(w, n);
    let sum = assemble::summarize(w, n);
    let whole = cost::whole_form(sum.stats, span);
    Decision {
        form: choose(whole, sum.form, sum.segments),
        sum,
        offers,
    }
}

// Test 6.
#[tactic(auto, unfolding(model::specs::Tests::pick, model::specs::Tests::both))]
fn six(bytes: u64, limit: usize) -> Result<(), Refusal>
    ensures { number_in result ≡ pick (both (leb bytes limit) (leb bytes 65535)) 0 6 }
{
    if bytes <= limit as u64 && bytes <= 65535 {
        Ok(())
    } else {
        Err(Refusal::Limit)
    }
}

// Test 7.
#[tactic(auto, unfolding(model::specs::Tests::pick))]
fn seven(bytes: u64, room: usize) -> Result<(), Refusal>
    ensures { number_in result ≡ pick (leb bytes room) 0 7 }
{
    if bytes <= room as u64 {
        Ok(())
    } else {
        Err(Refusal::Output)
    }
}

// Test 6, then test 7.
#[tactic(auto, unfolding(planning::specs::Planning::late_number, model::specs::Tests::pick))]
fn late(bytes: u64, limit: usize, room: usize) -> Result<(), Refusal>
    ensures { number_in result ≡ late_number bytes limit room }
{
    six(bytes, limit)?;
    seven(bytes, room)
}

// What an accepted plan answers.
#[tactic(auto, unfolding(crate::specs::Plans::values_of, planning::specs::Planning::planned_values))]
fn made(d: Decision) -> Body
    requires { (d.form.bytes ≤ 65535) × (d.sum.segments ≤ 65535) × (d.offers ≤ 4294967295) }
    ensures { values_of result ≡ planned_values d.form d.sum.segments d.offers }
{
    Body {
        tag: d.form.tag,
        length: d.form.bytes as u16,
        segments: d.sum.segments as u16,
        offers: d.offers as u32,
    }
}

// ---- rows of either width

// Plans in a workspace of 24 words for each of n seeds, and leaves what merging made of it.
fn planned<R: Rises>(
    start: u64,
    end: u64,
    rows: &[R],
    seeds: &[u16],
    n: usize,
    limit: usize,
    w: &mut [u32],
    out: &mut [u8],
) -> Result<Body, Refusal>
    requires { Tested start end (map R.number rows.now) seeds.now n w.old }
    ensures result_value { planned_of result ≡ plan_of start end (map R.number rows.now) seeds.now limit (length w.old) (length out.old) }
    ensures out_after { out.new ≡ plan_out start end (map R.number rows.now) seeds.now limit (length w.old) out.old }
{
    let span = (end - start) as u32;
    seeds::put_rows(w, rows, seeds, start, n);
    let d = decide(w, n, span);
    late(d.form.bytes, limit, out.len())?;
    assemble::body_rows(out, rows, start, span, d.form, d.sum, w, n);
    Ok(made(d))
}

// The words of the workspace that merging needs are cleared whatever tests 6 and 7 say, so no `?` stands between.
fn plan<R: Rises>(
    start: u64,
    end: u64,
    rows: &[R],
    seeds: &[u16],
    limit: usize,
    work: &mut [u32],
    out: &mut [u8],
) -> Result<Body, Refusal>
    ensures result_value { planned_of result ≡ plan_of start end (map R.number rows.now) seeds.now limit (length work.old) (length out.old) }
    ensures out_after { out.new ≡ plan_out start end (map R.number rows.now) seeds.now limit (length work.old) out.old }
    ensures work_after { work.new ≡ plan_work start end (map R.number rows.now) seeds.now work.old }
{
    let n = seeds::rows_early(start, end, rows, seeds, work.len())?;
    let r = planned(start, end, rows, seeds, n, limit, &mut work[..n * 24], out);
    links::clear(work, n);
    r
}

// ---- the public calls

// Rows of a coverage to the shortest body. Seeds are the ends of ranges of rows; without them rows fall in 4,096-windows.
pub fn plan_rows(
    start: u64,
    end: u64,
    rows: &[u64],
    seeds: &[u16],
    limit: usize,
    work: &mut [u32],
    out: &mut [u8],
) -> Result<Body, Refusal>
    ensures result_value { planned_of result ≡ plan_of start end rows.now seeds.now limit (length work.old) (length out.old) }
    ensures out_after { out.new ≡ plan_out start end rows.now seeds.now limit (length work.old) out.old }
    ensures work_after { work.new ≡ plan_work start end rows.now seeds.now work.old }
{
    plan(start, end, rows, seeds, limit, work, out)
}

// Ordinals below a row count, which are their own positions and have no seeds but windows, to the shortest body.
pub fn plan_ordinals(
    count: u16,
    ordinals: &[u16],
    limit: usize,
    work: &mut [u32],
    out: &mut [u8],
) -> Result<Body, Refusal>
    ensures result_value { planned_of result ≡ plan_of 0 count ordinals.now [] limit (length work.old) (length out.old) }
    ensures out_after { out.new ≡ plan_out 0 count ordinals.now [] limit (length work.old) out.old }
    ensures work_after { work.new ≡ plan_work 0 count ordinals.now [] work.old }
{
    plan(0, u64::from(count), ordinals, &[], limit, work, out)
}
