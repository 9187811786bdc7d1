// Document 01's rows, planned: the answer, and the body in hexadecimal digits.
use crate::{say, say_refused, say16, say32};
use model::Refusal;
use plan::Body;
use std::io::Stdout;

// The first n bytes of an output, 64 at most.
fn say_bytes(stdout: Stdout, out: &[u8; 64], n: usize) {
    for byte in &out[..n.min(64)] {
        let byte = *byte;
        let _ = print!(stdout; "{byte:02X}");
    }
    let _ = println!(stdout);
}

fn say_plan(stdout: Stdout, answer: Result<Body, Refusal>, out: &[u8; 64]) {
    match answer {
        Ok(b) => {
            say(stdout, u64::from(b.tag));
            say16(stdout, b.length);
            say16(stdout, b.segments);
            say32(stdout, b.offers);
            say_bytes(stdout, out, usize::from(b.length))
        }
        Err(refusal) => {
            say_refused(stdout);
            say(stdout, u64::from(u8::from(refusal)))
        }
    }
}

fn show(stdout: Stdout, start: u64, end: u64, rows: &[u64]) {
    let mut work = [5u32; 72];
    let mut out = [7u8; 64];
    let p = plan::plan_rows(start, end, rows, &[], 65535, &mut work, &mut out);
    say_plan(stdout, p, &out);
}

// Within a few rows, and at the last position of 16 bits.
fn near(stdout: Stdout) {
    show(stdout, 100, 105, &[100, 101, 102, 103, 104]);
    show(stdout, 0, 10, &[3, 4, 5]);
    show(stdout, 0, 10, &[3, 4, 5, 6]);
    show(stdout, 0, 10, &[0, 1, 2, 3, 5, 6, 7, 8, 9]);
    show(stdout, 0, 65537, &[65535]);
    show(stdout, 0, 65537, &[65536]);
}

// Every other row of 64.
fn evens() -> [u64; 32] {
    [
        0, 2, 4, 6, 8, 10, 12, 14, 16, 18, 20, 22, 24, 26, 28, 30, 32, 34, 36, 38, 40, 42, 44, 46,
        48, 50, 52, 54, 56, 58, 60, 62,
    ]
}

// Runs, and every other row.
fn runs(stdout: Stdout) {
    show(
        stdout,
        0,
        200,
        &[
            10, 11, 12, 13, 14, 15, 16, 17, 18, 19, 100, 101, 102, 103, 104, 105, 106, 107, 108,
            109,
        ],
    );
    show(stdout, 0, 64, &evens());
}

// Ten and twelve rows, 100 apart.
fn apart(stdout: Stdout) {
    show(
        stdout,
        0,
        200000,
        &[
            100000, 100100, 100200, 100300, 100400, 100500, 100600, 100700, 100800, 100900,
        ],
    );
    show(
        stdout,
        0,
        200000,
        &[
            100000, 100100, 100200, 100300, 100400, 100500, 100600, 100700, 100800, 100900, 101000,
            101100,
        ],
    );
}

// Over several windows.
fn windows(stdout: Stdout) {
    show(stdout, 0, 10000, &[0, 4096, 8192]);
    show(
        stdout,
        0,
        8192,
        &[
            0, 1, 2, 3, 4, 6, 7, 8, 9, 4096, 4097, 4098, 4099, 4100, 4101, 4102, 4103, 4104, 4105,
        ],
    );
    show(stdout, 0, 65536, &[0, 65534]);
    show(stdout, 0, 65536, &[0, 65535]);
}

// Every planning example, in document 01's order.
pub(crate) fn all(stdout: Stdout) {
    near(stdout);
    runs(stdout);
    apart(stdout);
    windows(stdout);
}

fn say8(stdout: Stdout, n: u8) {
    say(stdout, u64::from(n));
}

// Refusals 1 to 3, and rows at the top of u64.
pub(crate) fn edges(stdout: Stdout) {
    show(stdout, 7, 7, &[7]);
    show(stdout, 0, 10, &[]);
    show(stdout, 0, 10, &[3, 3]);
    show(
        stdout,
        18446744069414584320,
        18446744073709551615,
        &[18446744069414584320, 18446744073709551614],
    );
}

fn seeded(stdout: Stdout, seeds: &[u16], limit: usize) {
    let mut work = [5u32; 24];
    let mut out = [7u8; 64];
    let p = plan::plan_rows(0, 10, &[3, 5], seeds, limit, &mut work, &mut out);
    say_plan(stdout, p, &out);
    say32(stdout, work[0]);
    say8(stdout, out[0]);
}

// Refusals 4 and 5, which leave the workspace; 6, and a plan, which zero it.
pub(crate) fn seeds(stdout: Stdout) {
    seeded(stdout, &[1], 65535);
    seeded(stdout, &[1, 2], 65535);
    seeded(stdout, &[2], 3);
    seeded(stdout, &[2], 4);
}

fn show_ordinals(stdout: Stdout, row_count: u16, limit: usize) {
    let mut work = [5u32; 24];
    let mut out = [7u8; 64];
    let p = plan::plan_ordinals(row_count, &[3, 5], limit, &mut work, &mut out);
    say_plan(stdout, p, &out);
    say8(stdout, out[3]);
    say8(stdout, out[4]);
}

// The same rows as ordinals, and refusal 3.
pub(crate) fn ordinals(stdout: Stdout) {
    show_ordinals(stdout, 10, 4);
    show_ordinals(stdout, 5, 4);
}
