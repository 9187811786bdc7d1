// A plan of the list: start u64, end u64, limit u32, items u16, seeds u16, refusal u8 (0 for none), tag u8, length u16, segments u16,
// offers u32; then the items of the rows, the seed ends, and the body.
ghost use Rattle.std.specs.Prelude.{◌≤◌};

use crate::Fault;
use crate::list::{
    count16, count32, narrow, number8, number16, number32, number64, rows_of, same_bytes,
};
use crate::spaces::{ordinal_space, out_space, row_space, work_space};
use model::Refusal;
use plan::Body;

fn seeds_at(b: &[u8]) -> usize
    ensures { result ≤ 1000000 }
{
    34 + count16(b, 20) * 4
}

fn body_at(b: &[u8]) -> usize
    ensures { result ≤ 2000000 }
{
    seeds_at(b) + count16(b, 22) * 2
}

// Whether the case has the bytes that its numbers say.
fn is_whole(b: &[u8]) -> bool {
    body_at(b) + count16(b, 26) == b.len()
}

// The third byte of the body, which tells a trimmed bitmap.
pub(crate) fn flag(b: &[u8]) -> u8 {
    number8(b, body_at(b) + 2)
}

fn same_made(b: &[u8], m: Body, out: &[u8]) -> bool {
    number8(b, 24) == 0
        && m.tag == number8(b, 25)
        && m.length == number16(b, 26)
        && m.segments == number16(b, 28)
        && m.offers == number32(b, 30)
        && same_bytes(out, b, body_at(b), usize::from(m.length))
}

fn same_plan(b: &[u8], answer: Result<Body, Refusal>, out: &[u8]) -> bool {
    match answer {
        Ok(m) => same_made(b, m, out),
        Err(refusal) => u8::from(refusal) == number8(b, 24),
    }
}

// Puts n seed ends in front, as far as there is room.
fn seeds_of(b: &[u8], from: usize, n: usize, seeds: &mut [u16])
    requires { (from ≤ 1000000) × (n ≤ 65535) }
{
    for i in 0..n.min(seeds.len()) {
        seeds[i] = number16(b, from + i * 2);
    }
}

fn ask_rows(b: &[u8], rows: &[u64], seeds: &[u16]) -> bool {
    let mut work = work_space();
    let mut out = out_space();
    let answer = plan::plan_rows(
        number64(b, 0),
        number64(b, 8),
        rows,
        seeds,
        count32(b, 16),
        &mut work,
        &mut out,
    );
    same_plan(b, answer, &out)
}

// Whether the rows are planned as the list says.
fn same_rows(b: &[u8], rows: &[u64]) -> bool {
    let k = count16(b, 22);
    let mut seeds = ordinal_space();
    seeds_of(b, seeds_at(b), k, &mut seeds);
    ask_rows(b, rows, &seeds[..k])
}

// ---- the same rows as ordinals, where they begin at 0 and have no seeds

// Whether the case could be one of ordinals, by all but its rows.
fn is_of_ordinals(b: &[u8]) -> bool {
    number64(b, 0) == 0 && number64(b, 8) <= 65535 && count16(b, 22) == 0
}

fn ask_ordinals(b: &[u8], ordinals: &[u16]) -> bool {
    let mut work = work_space();
    let mut out = out_space();
    let answer = plan::plan_ordinals(
        number16(b, 8),
        ordinals,
        count32(b, 16),
        &mut work,
        &mut out,
    );
    same_plan(b, answer, &out)
}

// Whether the rows are ordinals; and if so, they are planned as the list says.
fn same_ordinals(b: &[u8], rows: &[u64]) -> Result<bool, Fault> {
    let mut ordinals = ordinal_space();
    let n = rows.len();
    if !narrow(rows, &mut ordinals) || ordinals.len() < n {
        return Ok(false);
    }
    if ask_ordinals(b, &ordinals[..n]) {
        Ok(true)
    } else {
        Err(Fault::Different)
    }
}

// Runs the case: whether it came out as ordinals too.
pub(crate) fn run(b: &[u8]) -> Result<bool, Fault> {
    if !is_whole(b) {
        return Err(Fault::Broken);
    }
    let mut space = row_space();
    let n = rows_of(b, 34, count16(b, 20), number64(b, 0), &mut space);
    if space.len() < n {
        return Err(Fault::Broken);
    }
    let rows = &space[..n];
    if !same_rows(b, rows) {
        return Err(Fault::Different);
    }
    if is_of_ordinals(b) {
        same_ordinals(b, rows)
    } else {
        Ok(false)
    }
}
