// The public reading calls, over tag, span and body. None asks anything of its caller: each tests its own input and refuses.

#![tactic(auto)]

ghost use Rattle.std.specs.Prelude.{◌≡◌, ◌≤◌, true, false, length, MatchResult};
ghost use Rattle.std.specs.Option.{option_to_list};
ghost use Rattle.bodies.specs.Bodies.{accepts};
ghost use Rattle.rowset.specs.Calls.{checked_of, ranked_of, selected_of, filled_of, entry_answer, validate_of, rank_answer, select_answer, row_of, ranks_answer, ranks_left, walk_answer, walk_left, segment_answer};

use bodies::Accepted;
use directory::{Directory, Segment};
use model::Place;
pub use model::Refusal;

// What each call asks first: the body, if it is one of this tag and span.
fn accepted<'a>(tag: u8, span: u32, body: &'a [u8]) -> Result<Accepted<'a>, Refusal>
    ensures { MatchResult result (λ a. (accepts tag span body.now ≡ true) × (a.tag ≡ tag) × (a.span ≡ span) × (a.body.now ≡ body.now)) (λ r. (accepts tag span body.now ≡ false) × (r ≡ Refusal.Body)) }
{
    bodies::accept(tag, span, body).ok_or(Refusal::Body)
}

// The count of an accepted body.
#[tactic(auto, unfolding(crate::specs::Calls::checked_of, crate::specs::Calls::validate_of, crate::specs::Calls::asked, model::specs::Tests::pick))]
pub fn validate(tag: u8, span: u32, body: &[u8]) -> Result<u16, Refusal>
    ensures { checked_of result ≡ validate_of tag span body.now }
{
    let accepted = accepted(tag, span, body)?;
    Ok(accepted.count())
}

// An ordinal where the position is a row.
#[tactic(auto, unfolding(crate::specs::Calls::row_of, model::specs::Tests::pick))]
fn of_place(q: Place) -> Option<u16>
    requires { q.below ≤ 65535 }
    ensures { option_to_list result ≡ row_of q }
{
    q.present.then_some(q.below as u16)
}

// The ordinal of a position, or nothing.
#[tactic(auto, unfolding(crate::specs::Calls::ranked_of, crate::specs::Calls::rank_answer, crate::specs::Calls::asked, crate::specs::Calls::row_of, model::specs::Lists::rank_of, model::specs::Lists::place_of, model::specs::Tests::pick))]
pub fn rank(tag: u8, span: u32, body: &[u8], position: u32) -> Result<Option<u16>, Refusal>
    ensures { ranked_of result ≡ rank_answer tag span body.now position }
{
    let accepted = accepted(tag, span, body)?;
    Ok(of_place(accepted.place(position)))
}

// The position of an ordinal, or nothing.
#[tactic(auto, unfolding(crate::specs::Calls::selected_of, crate::specs::Calls::select_answer, crate::specs::Calls::asked, model::specs::Tests::pick))]
pub fn select(tag: u8, span: u32, body: &[u8], ordinal: u16) -> Result<Option<u32>, Refusal>
    ensures { selected_of result ≡ select_answer tag span body.now ordinal }
{
    let accepted = accepted(tag, span, body)?;
    if accepted.count() <= ordinal {
        return Ok(None);
    }
    Ok(Some(accepted.select(ordinal)))
}

// One answer for each query, and how many there are. The body is validated once.
#[tactic(auto, unfolding(crate::specs::Calls::filled_of, crate::specs::Calls::ranks_answer, crate::specs::Calls::ranks_left, crate::specs::Calls::asked, model::specs::Tests::pick))]
pub fn ranks(
    tag: u8,
    span: u32,
    body: &[u8],
    positions: &[u32],
    out: &mut [u32],
) -> Result<usize, Refusal>
    ensures result_value { filled_of result ≡ ranks_answer tag span body.now positions.now (length out.old) }
    ensures out_after { out.new ≡ ranks_left tag span body.now positions.now out.old }
{
    let accepted = accepted(tag, span, body)?;
    if out.len() < positions.len() {
        return Err(Refusal::Output);
    }
    accepted.ranks(positions, out);
    Ok(positions.len())
}

// The positions from an ordinal on, as many as fit or remain, and how many these are.
#[tactic(auto, unfolding(crate::specs::Calls::filled_of, crate::specs::Calls::walk_answer, crate::specs::Calls::walk_left, crate::specs::Calls::asked, model::specs::Tests::pick))]
pub fn walk(tag: u8, span: u32, body: &[u8], from: u16, out: &mut [u32]) -> Result<usize, Refusal>
    ensures result_value { filled_of result ≡ walk_answer tag span body.now from (length out.old) }
    ensures out_after { out.new ≡ walk_left tag span body.now from out.old }
{
    let accepted = accepted(tag, span, body)?;
    Ok(accepted.walk(from, out))
}

// The i-th entry of the directory: nothing for another tag, or past the end.
#[tactic(auto, unfolding(crate::specs::Calls::entry_answer, crate::specs::Calls::entry_values, crate::specs::Calls::segment_answer, crate::specs::Calls::asked, model::specs::Tests::pick))]
pub fn segment(tag: u8, span: u32, body: &[u8], i: usize) -> Result<Option<Segment>, Refusal>
    ensures { entry_answer result ≡ segment_answer tag span body.now i }
{
    accepted(tag, span, body)?;
    if tag != 9 {
        return Ok(None);
    }
    let n = directory::segments(body);
    if n <= i {
        return Ok(None);
    }
    Ok(Some(Directory::new(body, n).entry(i)))
}
