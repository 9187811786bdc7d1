// Lists the records of standard input, as document 01's "The listing" has it.
//
// One pass, with two fixed buffers. `buf` holds the bytes that were read and not listed yet, at lo..hi; it is larger than any
// record. `out` holds text that waits to be written, its first `at` bytes; it is written when little room is left, and before each
// read but the first, so that a reader of a pipe sees the line of every record that has come. A read that fails counts as the end of the input.

#![tactic(auto)]

ghost use Rattle.std.specs.Prelude.{◌≡◌, ◌+◌, ◌-◌, ◌≤◌, ◌<◌, length};
ghost use Rattle.lister.specs.Window.{Listed, Slid, stops_of};

use listing::{Line, Next, line_of, next_in, put_header, put_line};
use std::io::{self, Read, Stdin, Stdout};

// Text that waits, and what came of the write that made room for it. A turn goes on after a write that failed: only then is it said.
#[derive(Drop)]
struct Text {
    at: usize,
    written: io::Result<()>,
}

// Records are listed up to byte lo, k of them in all.
#[derive(Drop)]
struct Stand {
    lo: usize,
    at: usize,
    k: u64,
    written: io::Result<()>,
}

// Whether more input would change nothing: what stands in front is no record that waits for its bytes.
#[tactic(auto, unfolding(crate::specs::Window::stops_of))]
fn stops(next: Next) -> bool
    ensures { result ≡ stops_of next }
{
    !matches!(next, Next::More)
}

// The last line where the input ends with `left` bytes of a record that is not whole.
fn last(left: usize) -> Line {
    if left == 0 { Line::End } else { Line::Broken }
}

// Room for one more line.
fn room(stdout: Stdout, out: &[u8], at: usize) -> Text
    requires at_in_bounds { at ≤ length out.now }
    requires in_bounds { 128 ≤ length out.now }
    ensures { result.at + 128 ≤ length out.now }
{
    if out.len() - at < 128 {
        return Text {
            at: 0,
            written: stdout.write_all(&out[..at]),
        };
    }
    Text {
        at,
        written: Ok(()),
    }
}

// One read into buf from `at` on. There is room, so that 0 means the end.
fn read_some(mut stdin: Stdin, buf: &mut [u8], at: usize) -> usize
    requires { at < length buf.old }
    ensures { at + result ≤ length buf.old }
{
    stdin.read(&mut buf[at..]).unwrap_or(0)
}

// The bytes lo..hi of buf, to its front.
fn slide(buf: &mut [u8], lo: usize, hi: usize)
    requires { (lo ≤ hi) × (hi ≤ length buf.old) }
    ensures { Slid buf.old lo hi buf.new }
{
    buf.copy_within(lo..hi, 0);
}

// The bytes lo..hi of buf to its front, and more behind them.
fn refill(stdin: Stdin, buf: &mut [u8], lo: usize, hi: usize) -> usize
    requires lo_le_hi { (lo ≤ hi) × (hi ≤ length buf.old) }
    requires lo_in_bounds { hi - lo < length buf.old }
    ensures { (hi - lo) + result ≤ length buf.old }
{
    slide(buf, lo, hi);
    read_some(stdin, buf, hi - lo)
}

// Lists the whole records at lo..hi.
#[tactic(auto, using(crate::proofs::Laws::record_within, crate::proofs::Laws::passed_none))]
fn list_some(
    stdout: Stdout,
    buf: &[u8],
    from: usize,
    hi: usize,
    out: &mut [u8],
    waiting: usize,
    before: u64,
) -> Stand
    requires from_le_hi { (from ≤ hi) × (hi ≤ length buf.now) }
    requires waiting_in_bounds { (waiting ≤ length out.old) × (128 ≤ length out.old) }
    requires hi_bound { before + hi < 18446744073709551616 }
    ensures { Listed buf.now from hi before (length out.old) result }
{
    let mut lo = from;
    let mut at = waiting;
    let mut k = before;
    let mut written = Ok(());
    while let Next::Record(n) = next_in(&buf[lo..hi]) {
        let text = room(stdout, out, at);
        written = written.and(text.written);
        let end = lo + 4 + n;
        at = put_line(out, text.at, line_of(&buf[lo + 4..end]), k);
        lo = end;
        k += 1;
    }
    Stand { lo, at, k, written }
}

// The last line, and all that waits.
fn finish(stdout: Stdout, out: &mut [u8], at: usize, line: Line, k: u64) -> io::Result<()>
    requires at_in_bounds { at ≤ length out.old }
    requires in_bounds { 128 ≤ length out.old }
{
    let text = room(stdout, out, at);
    let end = put_line(out, text.at, line, k);
    stdout.write_all(&out[..end]).and(text.written)
}

// Lists everything after the version byte; `got` bytes are read. A proved loop has to end, and nothing says that the input does:
// `total` counts the bytes read, and where it comes near 2^64 the listing breaks off as if the input stopped there.
fn list_all(
    rt: HostRuntime,
    buf: &mut [u8],
    got: usize,
    out: &mut [u8],
    waiting: usize,
) -> io::Result<()>
    requires value { 131072 ≡ length buf.old }
    requires le_got { (1 ≤ got) × (got ≤ length buf.old) }
    requires waiting_in_bounds { (waiting ≤ length out.old) × (128 ≤ length out.old) }
{
    let mut lo: usize = 1;
    let mut hi = got;
    let mut at = waiting;
    let mut k: u64 = 0;
    let mut total = got as u64;
    while total < 18446744073709420544 {
        let s = list_some(rt.stdout(), buf, lo, hi, out, at, k);
        let used = s.lo;
        k = s.k;
        rt.stdout().write_all(&out[..s.at]).and(s.written)?;
        if stops(next_in(&buf[used..hi])) {
            return finish(rt.stdout(), out, 0, Line::Broken, k);
        }
        let more = refill(rt.stdin(), buf, used, hi);
        hi -= used;
        if more == 0 {
            return finish(rt.stdout(), out, 0, last(hi), k);
        }
        lo = 0;
        at = 0;
        hi += more;
        total += more as u64;
    }
    finish(rt.stdout(), out, at, Line::Broken, k)
}

fn list(rt: HostRuntime) -> io::Result<()> {
    let mut space = [0u8; 131072];
    let buf: &mut [u8] = &mut space;
    let mut text = [0u8; 65536];
    let out: &mut [u8] = &mut text;
    let at = put_header(out, 0);
    let got = read_some(rt.stdin(), buf, 0);
    if got == 0 || buf[0] != 1 {
        return finish(rt.stdout(), out, at, Line::Version, 0);
    }
    list_all(rt, buf, got, out, at)
}

fn main(rt: HostRuntime) {
    if list(rt).is_err() {
        let _ = eprintln!(rt; "lister: standard output takes no more");
    }
}
