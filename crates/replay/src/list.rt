// The bytes of the list: numbers, each 0 where the bytes end before it, and rows.
//
// Rows are items of two numbers, a gap and how many rows follow, each that gap after the one before it. No row: a gap that counts
// 65,536 each. 65,535 rows: a gap backwards.
ghost use Rattle.std.specs.Prelude.{◌≡◌, ◌+◌, ◌≤◌, length, true};

// Rows so far, and the last one.
#[derive(Clone, Copy)]
struct Stand {
    at: usize,
    row: u64,
}

// Whether so many bytes stand at a place of the list.
fn has(b: &[u8], at: usize, size: usize) -> bool
    ensures { result ≡ true → at + size ≤ length b.now }
{
    size <= b.len() && at <= b.len() - size
}

pub(crate) fn number8(b: &[u8], at: usize) -> u8 {
    if has(b, at, 1) { b[at] } else { 0 }
}

pub(crate) fn number16(b: &[u8], at: usize) -> u16 {
    if has(b, at, 2) {
        fields::read16(b, at)
    } else {
        0
    }
}

pub(crate) fn number32(b: &[u8], at: usize) -> u32 {
    if has(b, at, 4) {
        fields::read32(b, at)
    } else {
        0
    }
}

pub(crate) fn number64(b: &[u8], at: usize) -> u64 {
    if has(b, at, 8) {
        fields::read64(b, at)
    } else {
        0
    }
}

pub(crate) fn count8(b: &[u8], at: usize) -> usize
    ensures { result ≤ 255 }
{
    usize::from(number8(b, at))
}

pub(crate) fn count16(b: &[u8], at: usize) -> usize
    ensures { result ≤ 65535 }
{
    usize::from(number16(b, at))
}

pub(crate) fn count32(b: &[u8], at: usize) -> usize {
    number32(b, at) as usize
}

// Whether an output begins with n bytes of the list.
pub(crate) fn same_bytes(out: &[u8], b: &[u8], from: usize, n: usize) -> bool {
    n <= out.len() && has(b, from, n) && out[..n] == b[from..from + n]
}

// Whether an output begins with the first n of these rows.
pub(crate) fn same_numbers<N: Copy + Into<u64>>(out: &[N], rows: &[u64], n: usize) -> bool {
    n <= out.len()
        && n <= rows.len()
        && out[..n]
            .iter()
            .zip(&rows[..n])
            .all(|(number, row)| (*number).into() == *row)
}

// ---- rows

fn forward(row: u64, by: u64) -> u64 {
    row.checked_add(by).unwrap_or(row)
}

// As many rows more as there is room for.
fn repeat(rows: &mut [u64], s: Stand, gap: u64, times: usize) -> Stand {
    let mut next = s;
    for _ in 0..times {
        if rows.len() <= next.at {
            return next;
        }
        next.row = forward(next.row, gap);
        rows[next.at] = next.row;
        next.at += 1;
    }
    next
}

fn item(rows: &mut [u64], s: Stand, gap: u16, times: u16) -> Stand {
    let by = u64::from(gap);
    match times {
        0 => Stand {
            at: s.at,
            row: forward(s.row, by * 65536),
        },
        65535 => Stand {
            at: s.at,
            row: s.row.saturating_sub(by),
        },
        _ => repeat(rows, s, by, usize::from(times)),
    }
}

// Puts the rows of so many items in front, and answers how many there are.
pub(crate) fn rows_of(b: &[u8], from: usize, items: usize, base: u64, rows: &mut [u64]) -> usize
    requires { (from ≤ 1048576) × (items ≤ 65535) }
{
    let mut next = Stand { at: 0, row: base };
    for i in 0..items {
        let at = from + i * 4;
        next = item(rows, next, number16(b, at), number16(b, at + 2));
    }
    next.at
}

// Puts the rows in front as ordinals, as far as each fits.
pub(crate) fn narrow(rows: &[u64], ordinals: &mut [u16]) -> bool {
    for (i, row) in rows.iter().enumerate() {
        let Ok(ordinal) = u16::try_from(*row) else {
            return false;
        };
        if ordinals.len() <= i {
            return false;
        }
        ordinals[i] = ordinal;
    }
    true
}
