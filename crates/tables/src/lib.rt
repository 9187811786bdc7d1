// For tools: a lent table of segment records, filled from a segmented body in one call.

#![tactic(auto)]

ghost use Rattle.std.specs.Prelude.{◌≡◌, length};
ghost use Rattle.rowset.specs.Calls.{filled_of};
ghost use Rattle.tables.specs.Tables.{segments_answer, segments_left};

use directory::{Directory, Segment};
use rowset::Refusal;

// What `segments` answers, from the body and the room alone: nothing is stored.
#[tactic(auto, using(crate::proofs::Filling::entries_count, crate::proofs::Filling::entries_none, bodies::proofs::Laws::nine_room), unfolding(rowset::specs::Calls::filled_of, rowset::specs::Calls::asked, crate::specs::Tables::segments_answer, model::specs::Tests::pick))]
fn planned(tag: u8, span: u32, body: &[u8], room: usize) -> Result<usize, Refusal>
    ensures { filled_of result ≡ segments_answer tag span body.now room }
{
    if !bodies::check(tag, span, body) {
        return Err(Refusal::Body);
    }
    if tag != 9 {
        return Ok(0);
    }
    let n = directory::segments(body);
    if room < n {
        return Err(Refusal::Output);
    }
    Ok(n)
}

// ---- the call

// The entries of the directory, in front of the table, and how many these are. Another tag than 9 has none.
pub fn segments(tag: u8, span: u32, body: &[u8], table: &mut [Segment]) -> Result<usize, Refusal>
    ensures result_value { filled_of result ≡ segments_answer tag span body.now (length table.old) }
    ensures table_after { table.new ≡ segments_left tag span body.now table.old }
{
    let n = planned(tag, span, body, table.len())?;
    for i in 0..n {
        table[i] = Directory::new(body, n).entry(i);
    }
    Ok(n)
}

// ---- the call over a table by value

// A table of two records, and the answer.
#[derive(Clone, Copy)]
pub struct Pair {
    pub answer: Result<usize, Refusal>,
    pub table: [Segment; 2],
}

// The same over a table that is handed in and back: whoever calls this lends nothing.
pub fn segments_pair(tag: u8, span: u32, body: &[u8], table: [Segment; 2]) -> Pair
    ensures answer_value { filled_of result.answer ≡ segments_answer tag span body.now 2 }
    ensures table_value { result.table ≡ segments_left tag span body.now table }
{
    let mut table = table;
    let answer = segments(tag, span, body, &mut table);
    Pair { answer, table }
}
