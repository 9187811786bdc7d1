// Document 01's bodies, read by the public calls, its pages and rows, gathered, and its rows, planned: each answer on a line of its own, in ten
// digits, or a word. All that a function here does is print, and no contract can say what is printed, so none has one: what is printed is compared
// with the file `stdout`.

#![tactic(auto)]

mod gathering;
mod plans;

use directory::Segment;
use model::Refusal;
use std::io::Stdout;

fn say(stdout: Stdout, n: u64) {
    let _ = println!(stdout; "{n:010}");
}

fn say32(stdout: Stdout, n: u32) {
    say(stdout, u64::from(n));
}

fn say16(stdout: Stdout, n: u16) {
    say(stdout, u64::from(n));
}

fn say_refused(stdout: Stdout) {
    let _ = println!(stdout; "refused");
}

fn say_nothing(stdout: Stdout) {
    let _ = println!(stdout; "nothing");
}

// A number, nothing, or a refusal of a body.
fn say_found(stdout: Stdout, answer: Result<Option<u32>, Refusal>) {
    match answer {
        Ok(Some(n)) => say32(stdout, n),
        Ok(None) => say_nothing(stdout),
        Err(_) => say_refused(stdout),
    }
}

fn say_checked(stdout: Stdout, answer: Result<u16, Refusal>) {
    say_found(stdout, answer.map(|n| Some(u32::from(n))));
}

fn say_ranked(stdout: Stdout, answer: Result<Option<u16>, Refusal>) {
    say_found(stdout, answer.map(|ordinal| ordinal.map(|k| u32::from(k))));
}

fn check(stdout: Stdout, tag: u8, span: u32, body: &[u8]) {
    say_checked(stdout, rowset::validate(tag, span, body));
}

// Tags 1, 3, 8 and 7.
fn check_tags(stdout: Stdout) {
    check(stdout, 1, 5, &[]);
    check(stdout, 3, 10, &[3, 0, 4, 0, 5, 0]);
    check(stdout, 8, 10, &[3, 0, 0, 0, 4, 0, 4, 0]);
    check(stdout, 7, 10, &[9, 0, 0, 0, 4, 0]);
}

// Runs that touch, the same with the second start 3, and the last position that 16 bits hold.
fn check_runs(stdout: Stdout) {
    check(
        stdout,
        4,
        10,
        &[4, 0, 2, 0, 0, 0, 2, 0, 0, 0, 2, 0, 2, 0, 2, 0],
    );
    check(
        stdout,
        4,
        10,
        &[4, 0, 2, 0, 0, 0, 2, 0, 0, 0, 3, 0, 2, 0, 2, 0],
    );
    check(stdout, 4, 65536, &[1, 0, 1, 0, 255, 255, 1, 0, 0, 0]);
}

// More rows than ordinals, and tags that there are not.
fn check_numbers(stdout: Stdout) {
    check(stdout, 1, 65536, &[]);
    check(stdout, 0, 5, &[]);
    check(stdout, 10, 5, &[]);
}

// Twelve rows in one segment: 100000 + 100 i.
fn twelve() -> [u8; 44] {
    [
        12, 0, 1, 0, 160, 134, 1, 0, 77, 4, 12, 0, 0, 0, 20, 0, 24, 0, 3, 0, 0, 0, 100, 0, 200, 0,
        44, 1, 144, 1, 244, 1, 88, 2, 188, 2, 32, 3, 132, 3, 232, 3, 76, 4,
    ]
}

fn rank_twelve(stdout: Stdout, position: u32) {
    say_ranked(stdout, rowset::rank(9, 200000, &twelve(), position));
}

fn select_twelve(stdout: Stdout, ordinal: u16) {
    say_found(stdout, rowset::select(9, 200000, &twelve(), ordinal));
}

// The last two rows, and a place of the output that stays.
fn walk_twelve(stdout: Stdout) {
    let mut out = [7u32; 3];
    let _ = rowset::walk(9, 200000, &twelve(), 10, &mut out);
    say32(stdout, out[0]);
    say32(stdout, out[1]);
    say32(stdout, out[2]);
}

fn ask_twelve(stdout: Stdout) {
    check(stdout, 9, 200000, &twelve());
    rank_twelve(stdout, 100300);
    rank_twelve(stdout, 100301);
    select_twelve(stdout, 11);
    select_twelve(stdout, 12);
    walk_twelve(stdout);
}

fn say_segment(stdout: Stdout, s: Segment) {
    say32(stdout, s.start);
    say16(stdout, s.span);
    say16(stdout, s.count);
    say16(stdout, s.ordinal);
    say16(stdout, s.offset);
    say16(stdout, s.length);
    say(stdout, u64::from(s.tag));
}

fn say_filled(stdout: Stdout, answer: Result<usize, Refusal>) {
    match answer {
        Ok(n) => say(stdout, (n % 1000) as u64),
        Err(refusal) => {
            say_refused(stdout);
            say(stdout, u64::from(u8::from(refusal)))
        }
    }
}

// A record that no directory has, to see what stays.
fn sevens() -> Segment {
    Segment {
        start: 7,
        span: 7,
        count: 7,
        ordinal: 7,
        offset: 7,
        length: 7,
        tag: 7,
    }
}

// Room for two records, on a body: the answer and the first record.
fn list(stdout: Stdout, tag: u8, span: u32, body: &[u8]) -> Segment {
    let empty = sevens();
    let pair = tables::segments_pair(tag, span, body, [empty, empty]);
    let answer = pair.answer;
    let table = pair.table;
    say_filled(stdout, answer);
    say_segment(stdout, table[0]);
    table[1]
}

// Three segments of one row each, at 0, 2 and 4.
fn three() -> [u8; 52] {
    [
        3, 0, 3, 0, 0, 0, 0, 0, 1, 0, 1, 0, 0, 0, 52, 0, 0, 0, 1, 0, 2, 0, 0, 0, 1, 0, 1, 0, 1, 0,
        52, 0, 0, 0, 1, 0, 4, 0, 0, 0, 1, 0, 1, 0, 2, 0, 52, 0, 0, 0, 1, 0,
    ]
}

// The one record of twelve rows, with the second place as it was; no records of another tag; a span that is too small; a table that is.
fn list_segments(stdout: Stdout) {
    say_segment(stdout, list(stdout, 9, 200000, &twelve()));
    say_segment(stdout, list(stdout, 3, 10, &[3, 0, 4, 0, 5, 0]));
    say_segment(stdout, list(stdout, 9, 1000, &twelve()));
    check(stdout, 9, 5, &three());
    say_segment(stdout, list(stdout, 9, 5, &three()));
}

fn main(rt: HostRuntime) {
    let stdout = rt.stdout();
    check_tags(stdout);
    check_runs(stdout);
    check_numbers(stdout);
    ask_twelve(stdout);
    gathering::pages(stdout);
    gathering::rows(stdout);
    list_segments(stdout);
    plans::all(stdout);
    plans::edges(stdout);
    plans::seeds(stdout);
    plans::ordinals(stdout);
}
