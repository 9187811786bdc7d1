// The C interface of the deletion view. A section goes over as three numbers: whether it is coded, the stated count and the tag.
ghost use Rattle.std.specs.Prelude.{◌≡◌, length};
ghost use Rattle.model.specs.Answers.{refused};
ghost use Rattle.deletion.specs.Reading.{counted_of, contained_of, check_answer, contains_answer, walk_answer, walk_left};
ghost use Rattle.deletion.specs.Striking.{struck_of, strike_of, strike_out, strike_work};
ghost use Rattle.pelisafu.specs.Shown.{shown_plan, shown_checked, shown_filled, shown_contained, section_of};

use crate::{Checked, Contained, Filled, Plan};
use deletion::Coded;
use model::Refusal;
use plan::Body;

// ---- to an option, and from results to structs

// Of the empty set, count and tag are not looked at.
#[tactic(auto, unfolding(crate::specs::Shown::section_of, model::specs::Tests::pick))]
fn section(coded: u8, count: u16, tag: u8) -> Option<Coded>
    ensures { result ≡ section_of coded count tag }
{
    if coded == 0 {
        return None;
    }
    Some(Coded { count, tag })
}

impl From<Result<bool, Refusal>> for Contained {
    ghost from_gives = { λ answer shown. shown ≡ shown_contained (contained_of answer) };

    #[tactic(auto, unfolding(deletion::specs::Reading::contained_of, model::specs::Tests::pick, crate::specs::Shown::shown_contained, crate::specs::Shown::value_at))]
    fn from(answer: Result<bool, Refusal>) -> Contained {
        match answer {
            Ok(found) => Contained {
                number: 0,
                found: u8::from(found),
            },
            Err(refusal) => Contained {
                number: refusal.into(),
                found: 0,
            },
        }
    }
}

impl From<Result<Option<Body>, Refusal>> for Plan {
    ghost from_gives = { λ answer shown. shown ≡ shown_plan (struck_of answer) };

    #[tactic(auto, unfolding(deletion::specs::Striking::struck_of, deletion::specs::Striking::struck_values, plan::specs::Plans::values_of, crate::specs::Shown::shown_plan, crate::specs::Shown::value_at))]
    fn from(answer: Result<Option<Body>, Refusal>) -> Plan {
        match answer {
            Ok(Some(b)) => Plan {
                number: 0,
                tag: b.tag,
                length: b.length,
                segments: b.segments,
                offers: b.offers,
            },
            Ok(None) => Plan {
                number: 0,
                tag: 0,
                length: 0,
                segments: 0,
                offers: 0,
            },
            Err(refusal) => Plan {
                number: refusal.into(),
                tag: 0,
                length: 0,
                segments: 0,
                offers: 0,
            },
        }
    }
}

// ---- the calls

#[unsafe(no_mangle)]
pub extern "C" fn pelisafu_plan_deletions(
    rows: u16,
    limit: usize,
    ordinals: &[u16],
    work: &mut [u32],
    out: &mut [u8],
) -> Plan
    ensures value { result ≡ shown_plan (strike_of rows limit ordinals.now (length work.old) (length out.old)) }
    ensures out_after { out.new ≡ strike_out rows limit ordinals.now (length work.old) out.old }
    ensures work_after { work.new ≡ strike_work rows limit ordinals.now work.old }
{
    deletion::plan_deletions(rows, limit, ordinals, work, out).into()
}

#[unsafe(no_mangle)]
pub extern "C" fn pelisafu_check_deletions(
    rows: u16,
    limit: usize,
    coded: u8,
    count: u16,
    tag: u8,
    body: &[u8],
) -> Checked
    ensures { result ≡ shown_checked (check_answer rows limit (section_of coded count tag) body.now) }
{
    deletion::check_deletions(rows, limit, section(coded, count, tag), body).into()
}

#[unsafe(no_mangle)]
pub extern "C" fn pelisafu_deleted(
    rows: u16,
    limit: usize,
    coded: u8,
    count: u16,
    tag: u8,
    body: &[u8],
    ordinal: u16,
) -> Contained
    ensures { result ≡ shown_contained (contains_answer rows limit (section_of coded count tag) body.now ordinal) }
{
    deletion::contains(rows, limit, section(coded, count, tag), body, ordinal).into()
}

#[unsafe(no_mangle)]
pub extern "C" fn pelisafu_walk_deletions(
    rows: u16,
    limit: usize,
    coded: u8,
    count: u16,
    tag: u8,
    body: &[u8],
    from: u16,
    out: &mut [u16],
) -> Filled
    ensures value { result ≡ shown_filled (walk_answer rows limit (section_of coded count tag) body.now from (length out.old)) }
    ensures out_after { out.new ≡ walk_left rows limit (section_of coded count tag) body.now from out.old }
{
    deletion::walk_deletions(rows, limit, section(coded, count, tag), body, from, out).into()
}
