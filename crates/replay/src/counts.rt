// Cases met, by kind: plans by tag at 1 to 9, refused plans by number at 11 to 16, accepted bodies by tag at 21 to 29, and from 30 on:
// refused bodies, plans that were also planned as ordinals, trimmed bitmaps planned, trimmed bitmaps read, ranks, selects, walks,
// deletions planned, none, refused, deletions read, refused.
use crate::Kind;
use crate::list::number8;
use crate::plans::flag;
use std::io::Stdout;

// Counts end at 2^32: a list is far shorter.
fn add(counts: &mut [u64], i: usize, more: u8) {
    if counts.len() <= i {
        return;
    }
    let n = counts[i];
    if n < 4294967296 {
        counts[i] = n + u64::from(more);
    }
}

// The place of a tag or a refusal: counted from `base`, and 0 for one that there is not.
fn place(k: u8, base: u8) -> usize {
    if k <= 9 && base <= 30 {
        usize::from(base + k)
    } else {
        0
    }
}

// Whether it is a trimmed bitmap, by its tag and the flag in its body.
fn is_trimmed(tag: u8, flag: u8) -> bool {
    tag == 6 && flag == 1
}

// A plan; `also` says that it was planned as ordinals too.
fn plan(counts: &mut [u64], b: &[u8], also: bool) {
    add(counts, 31, u8::from(also));
    let number = number8(b, 24);
    let tag = number8(b, 25);
    if number != 0 {
        add(counts, place(number, 10), 1);
        return;
    }
    add(counts, place(tag, 0), 1);
    add(counts, 32, u8::from(is_trimmed(tag, flag(b))));
}

fn body(counts: &mut [u64], b: &[u8]) {
    let tag = number8(b, 0);
    add(counts, 34, number8(b, 10));
    add(counts, 35, number8(b, 11));
    add(counts, 36, 1);
    if number8(b, 7) == 0 {
        add(counts, 30, 1);
        return;
    }
    add(counts, place(tag, 20), 1);
    add(counts, 33, u8::from(is_trimmed(tag, number8(b, 20))));
}

fn struck(counts: &mut [u64], b: &[u8]) {
    let i = match (number8(b, 6), number8(b, 7)) {
        (0, 0) => 38,
        (0, _) => 37,
        _ => 39,
    };
    add(counts, i, 1);
}

fn section(counts: &mut [u64], b: &[u8]) {
    let i = if number8(b, 11) == 0 { 40 } else { 41 };
    add(counts, i, 1);
}

// A case that came out as the list says; `also` says that a plan was planned as ordinals too.
pub(crate) fn case(counts: &mut [u64], kind: Kind, b: &[u8], also: bool) {
    match kind {
        Kind::Plan => plan(counts, b, also),
        Kind::Body => body(counts, b),
        Kind::Struck => struck(counts, b),
        Kind::Section => section(counts, b),
    }
}

// A text and the counts from `from` to before `to`, on a line.
fn line(stdout: Stdout, text: &[u8], counts: &[u64], from: usize, to: usize) {
    let _ = stdout.write_all(text);
    for i in from..to {
        let n = counts.get(i).copied().unwrap_or(0);
        let _ = print!(stdout; " {n}");
    }
    let _ = println!(stdout);
}

pub(crate) fn say(stdout: Stdout, counts: &[u64]) {
    line(stdout, b"plans with tags 1 to 9:", counts, 1, 10);
    line(
        stdout,
        b"plans refused with numbers 1 to 6:",
        counts,
        11,
        17,
    );
    line(stdout, b"also planned as ordinals:", counts, 31, 32);
    line(stdout, b"bodies accepted with tags 1 to 9:", counts, 21, 30);
    line(stdout, b"bodies refused:", counts, 30, 31);
    line(stdout, b"trimmed bitmaps planned, read:", counts, 32, 34);
    line(stdout, b"ranks, selects, walks:", counts, 34, 37);
    line(stdout, b"deletions planned, none, refused:", counts, 37, 40);
    line(stdout, b"deletions read, refused:", counts, 40, 42);
}
