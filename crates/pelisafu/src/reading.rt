// The C interface of reading: whole bodies, checked, asked and walked.
ghost use Rattle.std.specs.Prelude.{◌≡◌, length};
ghost use Rattle.rowset.specs.Calls.{checked_of, ranked_of, selected_of, filled_of, validate_of, rank_answer, ranks_answer, ranks_left, select_answer, walk_answer, walk_left};
ghost use Rattle.pelisafu.specs.Shown.{shown_checked, shown_ranked, shown_selected, shown_filled};

use crate::{Checked, Filled, Ranked, Selected};
use model::Refusal;

// ---- from results to structs

impl From<Result<u16, Refusal>> for Checked {
    ghost from_gives = { λ answer shown. shown ≡ shown_checked (checked_of answer) };

    #[tactic(auto, unfolding(rowset::specs::Calls::checked_of, crate::specs::Shown::shown_checked, crate::specs::Shown::value_at))]
    fn from(answer: Result<u16, Refusal>) -> Checked {
        match answer {
            Ok(rows) => Checked { number: 0, rows },
            Err(refusal) => Checked {
                number: refusal.into(),
                rows: 0,
            },
        }
    }
}

impl From<Result<Option<u16>, Refusal>> for Ranked {
    ghost from_gives = { λ answer shown. shown ≡ shown_ranked (ranked_of answer) };

    #[tactic(auto, unfolding(rowset::specs::Calls::ranked_of, crate::specs::Shown::shown_ranked, crate::specs::Shown::value_at, crate::specs::Shown::some_in))]
    fn from(answer: Result<Option<u16>, Refusal>) -> Ranked {
        match answer {
            Ok(Some(ordinal)) => Ranked {
                number: 0,
                found: 1,
                ordinal,
            },
            Ok(None) => Ranked {
                number: 0,
                found: 0,
                ordinal: 0,
            },
            Err(refusal) => Ranked {
                number: refusal.into(),
                found: 0,
                ordinal: 0,
            },
        }
    }
}

impl From<Result<Option<u32>, Refusal>> for Selected {
    ghost from_gives = { λ answer shown. shown ≡ shown_selected (selected_of answer) };

    #[tactic(auto, unfolding(rowset::specs::Calls::selected_of, crate::specs::Shown::shown_selected, crate::specs::Shown::value_at, crate::specs::Shown::some_in))]
    fn from(answer: Result<Option<u32>, Refusal>) -> Selected {
        match answer {
            Ok(Some(position)) => Selected {
                number: 0,
                found: 1,
                position,
            },
            Ok(None) => Selected {
                number: 0,
                found: 0,
                position: 0,
            },
            Err(refusal) => Selected {
                number: refusal.into(),
                found: 0,
                position: 0,
            },
        }
    }
}

impl From<Result<usize, Refusal>> for Filled {
    ghost from_gives = { λ answer shown. shown ≡ shown_filled (filled_of answer) };

    #[tactic(auto, unfolding(rowset::specs::Calls::filled_of, crate::specs::Shown::shown_filled, crate::specs::Shown::value_at))]
    fn from(answer: Result<usize, Refusal>) -> Filled {
        match answer {
            Ok(written) => Filled { number: 0, written },
            Err(refusal) => Filled {
                number: refusal.into(),
                written: 0,
            },
        }
    }
}

// ---- the calls

#[unsafe(no_mangle)]
pub extern "C" fn pelisafu_validate(tag: u8, span: u32, body: &[u8]) -> Checked
    ensures { result ≡ shown_checked (validate_of tag span body.now) }
{
    rowset::validate(tag, span, body).into()
}

#[unsafe(no_mangle)]
pub extern "C" fn pelisafu_rank(tag: u8, span: u32, body: &[u8], position: u32) -> Ranked
    ensures { result ≡ shown_ranked (rank_answer tag span body.now position) }
{
    rowset::rank(tag, span, body, position).into()
}

#[unsafe(no_mangle)]
pub extern "C" fn pelisafu_ranks(
    tag: u8,
    span: u32,
    body: &[u8],
    positions: &[u32],
    out: &mut [u32],
) -> Filled
    ensures value { result ≡ shown_filled (ranks_answer tag span body.now positions.now (length out.old)) }
    ensures out_after { out.new ≡ ranks_left tag span body.now positions.now out.old }
{
    rowset::ranks(tag, span, body, positions, out).into()
}

#[unsafe(no_mangle)]
pub extern "C" fn pelisafu_select(tag: u8, span: u32, body: &[u8], ordinal: u16) -> Selected
    ensures { result ≡ shown_selected (select_answer tag span body.now ordinal) }
{
    rowset::select(tag, span, body, ordinal).into()
}

#[unsafe(no_mangle)]
pub extern "C" fn pelisafu_walk(
    tag: u8,
    span: u32,
    body: &[u8],
    from: u16,
    out: &mut [u32],
) -> Filled
    ensures value { result ≡ shown_filled (walk_answer tag span body.now from (length out.old)) }
    ensures out_after { out.new ≡ walk_left tag span body.now from out.old }
{
    rowset::walk(tag, span, body, from, out).into()
}
