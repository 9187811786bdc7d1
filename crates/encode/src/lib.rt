// Whole bodies from rows: a header and a local layout, or the entries of a directory and their payloads.

#![tactic(auto)]

ghost use Rattle.std.specs.Prelude.{◌≡◌, ◌+◌, ◌-◌, ◌<◌, ◌≤◌, ltb, length, map};
ghost use Rattle.model.specs.Tests.{pick};
ghost use Rattle.model.specs.Lists.{Rising, runs_of, positions_of};
ghost use Rattle.stats.specs.Rows.{Covered};
ghost use Rattle.forms.specs.Forms.{local_layout};
ghost use Rattle.single.specs.Layout.{plain_layout, trimmed_layout};
ghost use Rattle.emit.specs.Written.{Written};
ghost use Rattle.encode.specs.Headers.{plain_header, bitmap_header, missing_header, entry_bytes};

use directory::Segment;
use model::{Row, row_at};

// ---- headers, and an entry of the directory

// The field beside the count: the number of runs, or a zero.
#[tactic(auto, unfolding(model::specs::Tests::pick))]
fn beside(tag: u8, runs: u16) -> u16
    ensures { result ≡ pick (ltb tag 6) runs 0 }
{
    if tag < 6 { runs } else { 0 }
}

fn plain_header(out: &mut [u8], at: usize, tag: u8, count: u16, runs: u16) -> usize
    requires { at + length (plain_header tag count runs) ≤ length out.old }
    ensures { Written (plain_header tag count runs) at out.old out.new result }
{
    if tag < 4 || 7 < tag {
        return at;
    }
    let second = beside(tag, runs);
    fields::put16(out, at, count);
    fields::put16(out, at + 2, second);
    at + 4
}

fn bitmap_header(out: &mut [u8], at: usize, first: u32, extent: u32, count: u16) -> usize
    requires { at + 12 ≤ length out.old }
    ensures { Written (bitmap_header first extent count) at out.old out.new result }
{
    fields::put16(out, at, count);
    fields::put16(out, at + 2, 1);
    fields::put32(out, at + 4, first);
    fields::put32(out, at + 8, extent);
    at + 12
}

fn missing_header(out: &mut [u8], at: usize, first: u32, extent: u32, count: u16) -> usize
    requires { at + 8 ≤ length out.old }
    ensures { Written (missing_header first extent count) at out.old out.new result }
{
    fields::put32(out, at, first);
    fields::put16(out, at + 4, (extent % 65536) as u16);
    fields::put16(out, at + 6, count);
    at + 8
}

// The tag and the zero byte behind it are one field.
pub fn put_entry(out: &mut [u8], at: usize, e: Segment) -> usize
    requires { at + 16 ≤ length out.old }
    ensures { Written (entry_bytes e) at out.old out.new result }
{
    fields::put32(out, at, e.start);
    fields::put16(out, at + 4, e.span);
    fields::put16(out, at + 6, e.count);
    fields::put16(out, at + 8, e.ordinal);
    fields::put16(out, at + 10, e.offset);
    fields::put16(out, at + 12, e.length);
    fields::put16(out, at + 14, u16::from(e.tag));
    at + 16
}

// ---- rows of either width

// A local layout by its tag, of rows counted from base.
pub fn local_rows<R: Row>(
    out: &mut [u8],
    at: usize,
    rows: &[R],
    base: u64,
    tag: u8,
    span: u32,
) -> usize
    requires { (Rising base (base + span) (map R.number rows.now)) × (length rows.now ≤ 65535) × (at + length (local_layout tag span (positions_of base (map R.number rows.now))) ≤ length out.old) }
    ensures { Written (local_layout tag span (positions_of base (map R.number rows.now))) at out.old out.new result }
{
    match tag {
        2 => emit_rows::list_rows(out, at, rows, base, true),
        3 => emit_rows::list_rows(out, at, rows, base, false),
        4 => emit_rows::runs_rows(out, at, rows, base, false),
        5 => emit_rows::runs_rows(out, at, rows, base, true),
        6 => emit_rows::bitmap_rows(out, at, rows, base, span),
        7 => emit_rows::missing_rows(out, at, rows, base, span),
        _ => at,
    }
}

// A body over the whole span. The number of runs is at hand from the statistics.
pub fn plain_rows<R: Row>(
    out: &mut [u8],
    rows: &[R],
    start: u64,
    tag: u8,
    span: u32,
    runs: u16,
) -> usize
    requires { (Rising start (start + span) (map R.number rows.now)) × (length rows.now ≤ 65535) × (runs ≡ length (runs_of (positions_of start (map R.number rows.now)))) × (length (plain_layout tag span (positions_of start (map R.number rows.now))) ≤ length out.old) }
    ensures { Written (plain_layout tag span (positions_of start (map R.number rows.now))) 0 out.old out.new result }
{
    let p = plain_header(out, 0, tag, rows.len() as u16, runs);
    local_rows(out, p, rows, start, tag, span)
}

// The positions from a row to a later one.
fn extent(first: u64, last: u64) -> u32
    requires { (first ≤ last) × (last < first + 4294967295) }
    ensures { result ≡ last - first + 1 }
{
    (last - first + 1) as u32
}

// A body from the first row to the last: a bitmap, or the missing form.
pub fn trimmed_rows<R: Row>(out: &mut [u8], rows: &[R], start: u64, tag: u8) -> usize
    requires { (Covered start (map R.number rows.now)) × (length rows.now ≤ 65535) × (length (trimmed_layout tag (positions_of start (map R.number rows.now))) ≤ length out.old) }
    ensures { Written (trimmed_layout tag (positions_of start (map R.number rows.now))) 0 out.old out.new result }
{
    let n = rows.len();
    let first = row_at(rows, 0);
    let base = stats::position(first, start);
    let span = extent(first, row_at(rows, n - 1));
    if tag == 6 {
        let p = bitmap_header(out, 0, base, span, n as u16);
        return local_rows(out, p, rows, first, 6, span);
    }
    let p = missing_header(out, 0, base, span, n as u16);
    local_rows(out, p, rows, first, 7, span)
}
