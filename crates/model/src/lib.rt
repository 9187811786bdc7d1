// What a position's place in a row set is: how many rows stand below it, and whether it is a row. And a place as one of many answers.

#![tactic(auto)]

ghost use Rattle.std.specs.Prelude.{◌≡◌};
ghost use Rattle.model.specs.Answers.{rank_or_none, lies_in};

mod each;
mod refusal;
mod row;

pub use each::answer_each;
pub use refusal::Refusal;
pub use row::{Row, row_at};

#[derive(Clone, Copy)]
pub struct Place {
    pub below: u32,
    pub present: bool,
}

// The rank of a row, or the number that stands for nothing.
#[tactic(auto, unfolding(crate::specs::Answers::rank_or_none, crate::specs::Tests::pick))]
pub fn rank_or(q: Place) -> u32
    ensures { result ≡ rank_or_none q }
{
    if q.present { q.below } else { 4294967295 }
}

// Whether a position lies in the part that begins at base.
#[tactic(auto, unfolding(crate::specs::Answers::lies_in, crate::specs::Tests::both))]
pub fn lies_in(base: u32, span: u32, p: u32) -> bool
    ensures { result ≡ lies_in base span p }
{
    base <= p && p - base < span
}
