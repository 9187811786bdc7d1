// The C interface of the directory of a segmented body: one entry, or all of them.
ghost use Rattle.std.specs.Prelude.{◌≡◌, length};
ghost use Rattle.model.specs.Answers.{refused};
ghost use Rattle.rowset.specs.Calls.{entry_answer, segment_answer};
ghost use Rattle.tables.specs.Tables.{segments_answer, segments_left};
ghost use Rattle.pelisafu.specs.Shown.{shown_filled, shown_entry};

use crate::{Entry, Filled};
use directory::Segment;
use model::Refusal;

// ---- from a result to a struct

// Past the end, under another tag, or refused.
#[tactic(auto, unfolding(crate::specs::Shown::shown_entry, crate::specs::Shown::segment_in, crate::specs::Shown::value_at, crate::specs::Shown::some_in))]
fn no_entry(number: u8) -> Entry
    ensures { result ≡ shown_entry (refused number) }
{
    Entry {
        number: number,
        found: 0,
        record: Segment {
            start: 0,
            span: 0,
            count: 0,
            ordinal: 0,
            offset: 0,
            length: 0,
            tag: 0,
        },
    }
}

impl From<Result<Option<Segment>, Refusal>> for Entry {
    ghost from_gives = { λ answer shown. shown ≡ shown_entry (entry_answer answer) };

    #[tactic(auto, unfolding(rowset::specs::Calls::entry_answer, rowset::specs::Calls::entry_values, rowset::specs::Calls::values_of, crate::specs::Shown::shown_entry, crate::specs::Shown::segment_in, crate::specs::Shown::value_at, crate::specs::Shown::some_in))]
    fn from(answer: Result<Option<Segment>, Refusal>) -> Entry {
        match answer {
            Ok(Some(record)) => Entry {
                number: 0,
                found: 1,
                record,
            },
            Ok(None) => no_entry(0),
            Err(refusal) => no_entry(refusal.into()),
        }
    }
}

// ---- the calls

#[unsafe(no_mangle)]
pub extern "C" fn pelisafu_segments(
    tag: u8,
    span: u32,
    body: &[u8],
    table: &mut [Segment],
) -> Filled
    ensures value { result ≡ shown_filled (segments_answer tag span body.now (length table.old)) }
    ensures table_after { table.new ≡ segments_left tag span body.now table.old }
{
    tables::segments(tag, span, body, table).into()
}

#[unsafe(no_mangle)]
pub extern "C" fn pelisafu_segment(tag: u8, span: u32, body: &[u8], i: usize) -> Entry
    ensures { result ≡ shown_entry (segment_answer tag span body.now i) }
{
    rowset::segment(tag, span, body, i).into()
}
