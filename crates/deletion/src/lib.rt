// The deletion view: the deleted rows of a block, as ordinals in [0, row count). Row count, section and body go together and are
// checked by each call. A deletion's rank among the deletions is not an ordinal, and no call hands one out.

#![tactic(auto)]

ghost use Rattle.std.specs.Prelude.{◌≡◌, ℕ, ◌+◌, ◌-◌, ◌≤◌, ◌<◌, true, length, get_or, IfSome};
ghost use Rattle.std.proofs.lemmas.List.Edits.{sets};
ghost use Rattle.model.specs.Tests.{pick};
ghost use Rattle.model.specs.Lists.{has, walk_of};
ghost use Rattle.model.specs.Answers.{over, Walked};
ghost use Rattle.model.specs.Refusals.{number_in};
ghost use Rattle.bodies.specs.Bodies.{names};
ghost use Rattle.rowset.specs.Calls.{filled_of};
ghost use Rattle.deletion.specs.Reading.{counted_of, contained_of, body_limit, block_fits, stated_fit, coded_number, section_number, sound, deleted_of, stated_of, held_by, check_answer, contains_answer, walk_answer, walk_left};
ghost use Rattle.deletion.specs.Striking.{struck_of, strike_of, strike_out, strike_work};

use bodies::Accepted;
use model::Refusal;
use plan::Body;

// What a section says of the body that stands beside it: its tag, and how many deletions it has. A section of no deletions has no body.
#[derive(Clone, Copy)]
pub struct Coded {
    pub count: u16,
    pub tag: u8,
}

// ---- the tests

// The bytes of a bitmap of all rows, with its header.
#[tactic(auto, unfolding(crate::specs::Reading::body_limit))]
fn body_limit(rows: u16) -> usize
    ensures { result ≡ body_limit rows }
{
    (4 + cost::bitmap_length(u64::from(rows))) as usize
}

#[tactic(auto, unfolding(crate::specs::Reading::block_fits, model::specs::Tests::both))]
fn block_fits(rows: u16, limit: usize) -> bool
    ensures { result ≡ block_fits rows limit }
{
    1 <= rows && usize::from(rows) <= limit
}

#[tactic(auto, unfolding(crate::specs::Reading::stated_fit, model::specs::Tests::both))]
fn stated_fit(rows: u16, count: u16, size: usize) -> bool
    ensures { result ≡ stated_fit rows count size }
{
    1 <= count && count <= rows && size <= body_limit(rows)
}

#[tactic(auto, unfolding(model::specs::Tests::pick))]
fn check_block(rows: u16, limit: usize) -> Result<(), Refusal>
    ensures { number_in result ≡ pick {A = ℕ} (block_fits rows limit) 0 9 }
{
    if block_fits(rows, limit) {
        Ok(())
    } else {
        Err(Refusal::Block)
    }
}

// The block and the stated count, then the body, then its count. No body is handed on with the answer, which would then go through
// memory: where no test refuses, it is `held_in` the section.
#[tactic(auto, unfolding(crate::specs::Reading::coded_number, model::specs::Tests::both, model::specs::Tests::pick))]
fn check_coded(rows: u16, limit: usize, coded: Coded, body: &[u8]) -> Result<(), Refusal>
    ensures { number_in result ≡ coded_number rows limit coded.count coded.tag body.now }
{
    if !block_fits(rows, limit) || !stated_fit(rows, coded.count, body.len()) {
        return Err(Refusal::Block);
    }
    if !bodies::check(coded.tag, u32::from(rows), body) {
        return Err(Refusal::Body);
    }
    if Accepted::new(coded.tag, u32::from(rows), body).count() != coded.count {
        return Err(Refusal::Count);
    }
    Ok(())
}

// Of an empty section the block alone is tested.
#[tactic(auto, unfolding(crate::specs::Reading::section_number))]
fn check_section(
    rows: u16,
    limit: usize,
    section: Option<Coded>,
    body: &[u8],
) -> Result<(), Refusal>
    ensures { number_in result ≡ section_number rows limit section body.now }
{
    match section {
        None => check_block(rows, limit),
        Some(coded) => check_coded(rows, limit, coded, body),
    }
}

// The body of a section that no test refuses; an empty section has none.
#[tactic(auto, using(crate::proofs::Sections::coded_accepted), unfolding(crate::specs::Reading::deleted_of, crate::specs::Reading::held_by))]
fn held_in<'a>(rows: u16, section: Option<Coded>, body: &'a [u8]) -> Option<Accepted<'a>>
    requires { sound rows section body.now ≡ true }
    ensures deleted { held_by result ≡ deleted_of rows section body.now }
    ensures narrow { IfSome result (λ a. a.span ≤ 65535) }
{
    match section {
        None => None,
        Some(coded) => Some(Accepted::new(coded.tag, u32::from(rows), body)),
    }
}

// ---- the deleted ordinals of a section that no test refuses

#[tactic(auto, unfolding(crate::specs::Reading::stated_of))]
fn stated(section: Option<Coded>) -> u16
    ensures { result ≡ stated_of section }
{
    match section {
        None => 0,
        Some(coded) => coded.count,
    }
}

#[tactic(auto, unfolding(crate::specs::Reading::held_by, model::specs::Lists::has, model::specs::Lists::place_of))]
fn is_deleted(held: Option<Accepted>, ordinal: u16) -> bool
    ensures { result ≡ has (held_by held.entry) ordinal }
{
    held.is_some_and(|accepted| accepted.place(u32::from(ordinal)).present)
}

// The positions of a page, which have 16 bits, into the output from `at` on.
fn copy(page: &[u32], out: &mut [u16], at: usize)
    requires { (at + length page.now ≤ length out.old) × ((j : ℕ) → j < length page.now → get_or page.now j 0 ≤ 65535) }
    ensures { out.new ≡ sets out.old at page.now }
{
    for (i, position) in page.iter().enumerate() {
        out[at + i] = *position as u16;
    }
}

// n deleted ordinals from the k-th on into the output from `at` on: a walk writes positions of 32 bits, to a page.
fn write_page(accepted: &Accepted, k: usize, n: usize, out: &mut [u16], at: usize)
    requires { (accepted.now.span ≤ 65535) × (n ≤ 64) × (k + n ≤ length (names accepted.now.tag accepted.now.span accepted.now.body.now)) × (at + n ≤ length out.old) }
    ensures { out.new ≡ sets out.old at (walk_of (names accepted.now.tag accepted.now.span accepted.now.body.now) k n) }
{
    let mut page = [0u32; 64];
    accepted.walk(k as u16, &mut page);
    copy(&page[..n], out, at);
}

fn write_from(accepted: &Accepted, from: usize, n: usize, out: &mut [u16])
    requires { (accepted.now.span ≤ 65535) × (n ≤ length out.old) × (n ≤ length (names accepted.now.tag accepted.now.span accepted.now.body.now) - from) }
    ensures { out.new ≡ over (walk_of (names accepted.now.tag accepted.now.span accepted.now.body.now) from n) out.old }
{
    let mut i = 0;
    while i < n {
        let m = (n - i).min(64);
        write_page(accepted, from + i, m, out, i);
        i += m;
    }
}

// As many ordinals as fit or remain.
fn write_coded(accepted: &Accepted, from: u16, out: &mut [u16]) -> usize
    requires { accepted.now.span ≤ 65535 }
    ensures { Walked (walk_of (names accepted.now.tag accepted.now.span accepted.now.body.now) from (length out.old)) out.old out.new result }
{
    let left = accepted.count().saturating_sub(from);
    let n = out.len().min(usize::from(left));
    write_from(accepted, usize::from(from), n, out);
    n
}

#[tactic(auto, using(crate::proofs::Walking::walked_none), unfolding(crate::specs::Reading::held_by))]
fn write(held: Option<Accepted>, from: u16, out: &mut [u16]) -> usize
    requires { IfSome held (λ a. a.span ≤ 65535) }
    ensures { Walked (walk_of (held_by held.entry) from (length out.old)) out.old out.new result }
{
    match held {
        None => 0,
        Some(accepted) => write_coded(&accepted, from, out),
    }
}

// ---- the calls

// How many rows are deleted.
#[tactic(auto, using(crate::proofs::Sections::passed), unfolding(crate::specs::Reading::counted_of, crate::specs::Reading::check_answer))]
pub fn check_deletions(
    rows: u16,
    limit: usize,
    section: Option<Coded>,
    body: &[u8],
) -> Result<u16, Refusal>
    ensures { counted_of result ≡ check_answer rows limit section body.now }
{
    check_section(rows, limit, section, body)?;
    Ok(stated(section))
}

// Whether the row of this ordinal is deleted.
#[tactic(auto, using(crate::proofs::Sections::passed), unfolding(crate::specs::Reading::contained_of, crate::specs::Reading::contains_answer))]
pub fn contains(
    rows: u16,
    limit: usize,
    section: Option<Coded>,
    body: &[u8],
    ordinal: u16,
) -> Result<bool, Refusal>
    ensures { contained_of result ≡ contains_answer rows limit section body.now ordinal }
{
    check_section(rows, limit, section, body)?;
    let held = held_in(rows, section, body);
    Ok(is_deleted(held, ordinal))
}

// The deleted ordinals from the `from`-th on, as many as fit or remain, and how many these are.
#[tactic(auto, using(crate::proofs::Sections::passed), unfolding(rowset::specs::Calls::filled_of, crate::specs::Reading::walk_answer, crate::specs::Reading::walk_left))]
pub fn walk_deletions(
    rows: u16,
    limit: usize,
    section: Option<Coded>,
    body: &[u8],
    from: u16,
    out: &mut [u16],
) -> Result<usize, Refusal>
    ensures result_value { filled_of result ≡ walk_answer rows limit section body.now from (length out.old) }
    ensures out_after { out.new ≡ walk_left rows limit section body.now from out.old }
{
    check_section(rows, limit, section, body)?;
    let held = held_in(rows, section, body);
    Ok(write(held, from, out))
}

// The plan of the deleted ordinals. Where there are none, there is no plan, and nothing is written, not even to the workspace.
#[tactic(auto, using(rowset::proofs::Same::number_not), unfolding(crate::specs::Striking::struck_of, crate::specs::Striking::struck_values, crate::specs::Striking::strike_of, crate::specs::Striking::strike_out, crate::specs::Striking::strike_work, crate::specs::Striking::strikes, plan::specs::Plans::planned_of, model::specs::Tests::both, model::specs::Tests::pick))]
pub fn plan_deletions(
    rows: u16,
    limit: usize,
    ordinals: &[u16],
    work: &mut [u32],
    out: &mut [u8],
) -> Result<Option<Body>, Refusal>
    ensures result_value { struck_of result ≡ strike_of rows limit ordinals.now (length work.old) (length out.old) }
    ensures out_after { out.new ≡ strike_out rows limit ordinals.now (length work.old) out.old }
    ensures work_after { work.new ≡ strike_work rows limit ordinals.now work.old }
{
    check_block(rows, limit)?;
    if ordinals.is_empty() {
        return Ok(None);
    }
    let body = plan::plan_ordinals(rows, ordinals, body_limit(rows), work, out)?;
    Ok(Some(body))
}
