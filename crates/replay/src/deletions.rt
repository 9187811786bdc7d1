// Deletion sets of the list. Planned: row count u16, block limit u32, refusal u8 (0 for none), tag u8 (0 for no deletions), length u16,
// items u16; then the items of the ordinals, and the body. Read: row count u16, block limit u32, stated count u16, tag u8, length u16,
// refusal u8, an ordinal u16 and whether it is deleted u8, items u16; then the body, and the items of all deleted ordinals.
ghost use Rattle.std.specs.Prelude.{◌≤◌};

use crate::Fault;
use crate::list::{count16, count32, narrow, number8, number16, rows_of, same_bytes, same_numbers};
use crate::spaces::{ordinal_space, out_space, row_space, work_space};
use deletion::Coded;
use model::Refusal;
use plan::Body;

// ---- planned

fn body_at(b: &[u8]) -> usize
    ensures { result ≤ 1000000 }
{
    12 + count16(b, 10) * 4
}

// Whether a case of planning has the bytes that its numbers say.
fn plan_is_whole(b: &[u8]) -> bool {
    body_at(b) + count16(b, 8) == b.len()
}

fn same_made(b: &[u8], m: Body, out: &[u8]) -> bool {
    number8(b, 6) == 0
        && m.tag == number8(b, 7)
        && m.length == number16(b, 8)
        && same_bytes(out, b, body_at(b), usize::from(m.length))
}

fn same_struck(b: &[u8], answer: Result<Option<Body>, Refusal>, out: &[u8]) -> bool {
    match answer {
        Ok(None) => number8(b, 6) == 0 && number8(b, 7) == 0,
        Ok(Some(m)) => same_made(b, m, out),
        Err(refusal) => u8::from(refusal) == number8(b, 6),
    }
}

fn ask_plan(b: &[u8], ordinals: &[u16]) -> bool {
    let mut work = work_space();
    let mut out = out_space();
    let answer = deletion::plan_deletions(
        number16(b, 0),
        count32(b, 2),
        ordinals,
        &mut work,
        &mut out,
    );
    same_struck(b, answer, &out)
}

// Whether the deletions are planned as the list says.
fn same_planned(b: &[u8], rows: &[u64]) -> bool {
    let mut ordinals = ordinal_space();
    let n = rows.len();
    narrow(rows, &mut ordinals) && n <= ordinals.len() && ask_plan(b, &ordinals[..n])
}

// Whether a case of planning comes out as the list says.
pub(crate) fn run_planned(b: &[u8]) -> Result<(), Fault> {
    if !plan_is_whole(b) {
        return Err(Fault::Broken);
    }
    let mut rows = row_space();
    let n = rows_of(b, 12, count16(b, 10), 0, &mut rows);
    if rows.len() < n {
        return Err(Fault::Broken);
    }
    if same_planned(b, &rows[..n]) {
        Ok(())
    } else {
        Err(Fault::Different)
    }
}

// ---- read

fn walk_at(b: &[u8]) -> usize
    ensures { result ≤ 100000 }
{
    17 + count16(b, 9)
}

// Whether a case of reading has the bytes that its numbers say.
fn read_is_whole(b: &[u8]) -> bool {
    walk_at(b) + count16(b, 15) * 4 == b.len()
}

fn section(b: &[u8]) -> Option<Coded> {
    Some(Coded {
        count: number16(b, 6),
        tag: number8(b, 8),
    })
}

fn is_good(b: &[u8]) -> bool {
    number8(b, 11) == 0
}

fn same_refusal(b: &[u8], refusal: Refusal) -> bool {
    u8::from(refusal) == number8(b, 11)
}

fn same_count(b: &[u8], answer: Result<u16, Refusal>) -> bool {
    match answer {
        Ok(n) => is_good(b) && n == number16(b, 6),
        Err(refusal) => same_refusal(b, refusal),
    }
}

fn same_contained(b: &[u8], answer: Result<bool, Refusal>) -> bool {
    match answer {
        Ok(deleted) => is_good(b) && u8::from(deleted) == number8(b, 14),
        Err(refusal) => same_refusal(b, refusal),
    }
}

fn same_walked(
    b: &[u8],
    answer: Result<usize, Refusal>,
    walked: &[u16],
    rows: &[u64],
    n: usize,
) -> bool {
    match answer {
        Ok(k) => is_good(b) && k == n && same_numbers(walked, rows, n),
        Err(refusal) => same_refusal(b, refusal),
    }
}

fn same_walk(b: &[u8], body: &[u8]) -> bool {
    let mut rows = row_space();
    let n = rows_of(b, walk_at(b), count16(b, 15), 0, &mut rows);
    let mut walked = ordinal_space();
    let answer = deletion::walk_deletions(
        number16(b, 0),
        count32(b, 2),
        section(b),
        body,
        0,
        &mut walked,
    );
    same_walked(b, answer, &walked, &rows, n)
}

fn same_asked(b: &[u8], body: &[u8]) -> bool {
    let rows = number16(b, 0);
    let limit = count32(b, 2);
    same_count(b, deletion::check_deletions(rows, limit, section(b), body))
        && same_contained(
            b,
            deletion::contains(rows, limit, section(b), body, number16(b, 12)),
        )
}

// Whether every answer on the section is as the list says.
pub(crate) fn run_read(b: &[u8]) -> Result<(), Fault> {
    let n = count16(b, 9);
    if b.len() < 17 + n || !read_is_whole(b) {
        return Err(Fault::Broken);
    }
    let body = &b[17..17 + n];
    if same_asked(b, body) && same_walk(b, body) {
        Ok(())
    } else {
        Err(Fault::Different)
    }
}
