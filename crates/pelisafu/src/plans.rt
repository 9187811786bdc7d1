// The C interface of planning: rows to the shortest body.
ghost use Rattle.std.specs.Prelude.{◌≡◌, [], length};
ghost use Rattle.planning.specs.Planning.{plan_of, plan_out, plan_work};
ghost use Rattle.plan.specs.Plans.{planned_of};
ghost use Rattle.pelisafu.specs.Shown.{shown_plan};

use crate::Plan;
use model::Refusal;
use plan::Body;

impl From<Result<Body, Refusal>> for Plan {
    ghost from_gives = { λ answer shown. shown ≡ shown_plan (planned_of answer) };

    #[tactic(auto, unfolding(plan::specs::Plans::planned_of, plan::specs::Plans::values_of, crate::specs::Shown::shown_plan, crate::specs::Shown::value_at))]
    fn from(answer: Result<Body, Refusal>) -> Plan {
        match answer {
            Ok(b) => Plan {
                number: 0,
                tag: b.tag,
                length: b.length,
                segments: b.segments,
                offers: b.offers,
            },
            Err(refusal) => Plan {
                number: refusal.into(),
                tag: 0,
                length: 0,
                segments: 0,
                offers: 0,
            },
        }
    }
}

#[unsafe(no_mangle)]
pub extern "C" fn pelisafu_plan_rows(
    start: u64,
    end: u64,
    rows: &[u64],
    seeds: &[u16],
    limit: usize,
    work: &mut [u32],
    out: &mut [u8],
) -> Plan
    ensures value { result ≡ shown_plan (plan_of start end rows.now seeds.now limit (length work.old) (length out.old)) }
    ensures out_after { out.new ≡ plan_out start end rows.now seeds.now limit (length work.old) out.old }
    ensures work_after { work.new ≡ plan_work start end rows.now seeds.now work.old }
{
    plan::plan_rows(start, end, rows, seeds, limit, work, out).into()
}

#[unsafe(no_mangle)]
pub extern "C" fn pelisafu_plan_ordinals(
    count: u16,
    ordinals: &[u16],
    limit: usize,
    work: &mut [u32],
    out: &mut [u8],
) -> Plan
    ensures value { result ≡ shown_plan (plan_of 0 count ordinals.now [] limit (length work.old) (length out.old)) }
    ensures out_after { out.new ≡ plan_out 0 count ordinals.now [] limit (length work.old) out.old }
    ensures work_after { work.new ≡ plan_work 0 count ordinals.now [] work.old }
{
    plan::plan_ordinals(count, ordinals, limit, work, out).into()
}
