// A body of the list: tag u8, span u32, length u16, accepted u8, count u16, ranks u8, selects u8, from u16, room u16, items u16; then the
// body, the ranks (position u32, ordinal u32), the selects (ordinal u16, position u32), and the items of what a walk from `from` puts
// into an output of so much room. 4,294,967,295 stands for nothing.
ghost use Rattle.std.specs.Prelude.{◌≤◌};

use crate::Fault;
use crate::list::{count8, count16, number8, number16, number32, rows_of, same_numbers};
use crate::spaces::{row_space, walk_space};
use model::Refusal;

// What the list has in the place of an ordinal or a position that there is not.
const NOTHING: u32 = 4294967295;

fn ranks_at(b: &[u8]) -> usize
    ensures { result ≤ 100000 }
{
    18 + count16(b, 5)
}

fn selects_at(b: &[u8]) -> usize
    ensures { result ≤ 200000 }
{
    ranks_at(b) + count8(b, 10) * 8
}

fn items_at(b: &[u8]) -> usize
    ensures { result ≤ 300000 }
{
    selects_at(b) + count8(b, 11) * 6
}

// Whether the case has the bytes that its numbers say.
fn is_whole(b: &[u8]) -> bool {
    items_at(b) + count16(b, 16) * 4 == b.len()
}

fn is_good(b: &[u8]) -> bool {
    number8(b, 7) == 1
}

fn same_count(b: &[u8], answer: Result<u16, Refusal>) -> bool {
    match answer {
        Ok(n) => is_good(b) && n == number16(b, 8),
        Err(_) => !is_good(b),
    }
}

fn same_rank(good: bool, answer: Result<Option<u16>, Refusal>, told: u32) -> bool {
    match answer {
        Ok(ordinal) => good && ordinal.map_or(NOTHING, |k| u32::from(k)) == told,
        Err(_) => !good,
    }
}

fn same_select(good: bool, answer: Result<Option<u32>, Refusal>, told: u32) -> bool {
    match answer {
        Ok(position) => good && position.unwrap_or(NOTHING) == told,
        Err(_) => !good,
    }
}

fn same_ranks(b: &[u8], body: &[u8], from: usize, n: usize) -> bool
    requires { (from ≤ 1000000) × (n ≤ 255) }
{
    for i in 0..n {
        let at = from + i * 8;
        let answer = rowset::rank(number8(b, 0), number32(b, 1), body, number32(b, at));
        if !same_rank(is_good(b), answer, number32(b, at + 4)) {
            return false;
        }
    }
    true
}

fn same_selects(b: &[u8], body: &[u8], from: usize, n: usize) -> bool
    requires { (from ≤ 1000000) × (n ≤ 255) }
{
    for i in 0..n {
        let at = from + i * 6;
        let answer = rowset::select(number8(b, 0), number32(b, 1), body, number16(b, at));
        if !same_select(is_good(b), answer, number32(b, at + 2)) {
            return false;
        }
    }
    true
}

// ---- walks

fn same_walked(
    b: &[u8],
    answer: Result<usize, Refusal>,
    walked: &[u32],
    rows: &[u64],
    n: usize,
) -> bool {
    match answer {
        Ok(k) => is_good(b) && k == n && same_numbers(walked, rows, n),
        Err(refusal) => !is_good(b) && refusal == Refusal::Body,
    }
}

fn same_walk(b: &[u8], body: &[u8]) -> bool {
    let mut rows = row_space();
    let n = rows_of(b, items_at(b), count16(b, 16), 0, &mut rows);
    let mut walked = walk_space();
    let room = count16(b, 14);
    let answer = rowset::walk(
        number8(b, 0),
        number32(b, 1),
        body,
        number16(b, 12),
        &mut walked[0..room],
    );
    same_walked(b, answer, &walked, &rows, n)
}

fn same_answers(b: &[u8], body: &[u8]) -> bool {
    same_count(b, rowset::validate(number8(b, 0), number32(b, 1), body))
        && same_ranks(b, body, ranks_at(b), count8(b, 10))
        && same_selects(b, body, selects_at(b), count8(b, 11))
        && same_walk(b, body)
}

// Whether every answer on the body is as the list says.
pub(crate) fn run(b: &[u8]) -> Result<(), Fault> {
    let n = count16(b, 5);
    if b.len() < 18 + n || !is_whole(b) {
        return Err(Fault::Broken);
    }
    if same_answers(b, &b[18..18 + n]) {
        Ok(())
    } else {
        Err(Fault::Different)
    }
}
