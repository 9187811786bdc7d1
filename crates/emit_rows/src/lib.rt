// Bodies from rows of either width, counted from base: the rows of a whole set, or of one segment as a part of its own.

#![tactic(auto)]

ghost use Rattle.std.specs.Prelude.{◌≡◌, true, ◌+◌, ◌-◌, ◌*◌, ◌<◌, ◌≤◌, length, map};
ghost use Rattle.fields.specs.Le.{width_of};
ghost use Rattle.model.specs.Lists.{Rising, positions_of};
ghost use Rattle.lists.specs.Lists.{list_layout};
ghost use Rattle.runs.specs.Runs.{runs_layout};
ghost use Rattle.missing.specs.Missing.{missing_layout};
ghost use Rattle.bitmap.specs.Body.{bitmap_length, bitmap_layout};
ghost use Rattle.emit.specs.Written.{Written};
ghost use Rattle.emit.specs.Words.{Cut, Onward, Sight, Spaced, Unbroken, Worded};

use bitmap::{groups_of, words_of};
use emit::{
    Outlook, Passed, Word, in_word, list_run, put_before, put_field, run_entry, with_digit,
    with_run,
};
use model::{Row, row_at};

pub fn list_rows<R: Row>(out: &mut [u8], at: usize, rows: &[R], base: u64, wide: bool) -> usize
    requires { (Rising base (base + 4294967295) (map R.number rows.now)) × (at + length (list_layout (width_of wide) (positions_of base (map R.number rows.now))) ≤ length out.old) }
    ensures { Written (list_layout (width_of wide) (positions_of base (map R.number rows.now))) at out.old out.new result }
{
    let w = fields::width(wide);
    let mut p = at;
    for row in rows {
        put_field(out, p, stats::position(row.wide(), base), wide);
        p += w;
    }
    p
}

pub fn runs_rows<R: Row>(out: &mut [u8], at: usize, rows: &[R], base: u64, wide: bool) -> usize
    requires { (Rising base (base + 4294967295) (map R.number rows.now)) × (length rows.now ≤ 65535) × (at + length (runs_layout (width_of wide) (positions_of base (map R.number rows.now))) ≤ length out.old) }
    ensures { Written (runs_layout (width_of wide) (positions_of base (map R.number rows.now))) at out.old out.new result }
{
    let mut p = at;
    let mut i = 0;
    while i < rows.len() {
        let j = stats::run_end(rows, i);
        p = run_entry(
            out,
            p,
            stats::position(row_at(rows, i), base),
            (j - i) as u16,
            i as u16,
            wide,
        );
        i = j;
    }
    p
}

// The holes before each run, and behind the last up to the span.
pub fn missing_rows<R: Row>(out: &mut [u8], at: usize, rows: &[R], base: u64, span: u32) -> usize
    requires { (Rising base (base + span) (map R.number rows.now)) × (at + length (missing_layout span (positions_of base (map R.number rows.now))) ≤ length out.old) }
    ensures { Written (missing_layout span (positions_of base (map R.number rows.now))) at out.old out.new result }
{
    let mut p = at;
    let mut from: u32 = 0;
    let mut i = 0;
    while i < rows.len() {
        let j = stats::run_end(rows, i);
        let first = stats::position(row_at(rows, i), base);
        p = list_run(out, p, from, first - from, false);
        from = first + (j - i) as u32;
        i = j;
    }
    list_run(out, p, from, span - from, false)
}

// Whether there is a row of index last, and those from index first to it stand one behind the other. Since rows rise, the two at
// the ends say so of all between.
fn unbroken<R: Row>(rows: &[R], first: usize, last: usize) -> bool
    requires { (Spaced (map R.number rows.now)) × (first ≤ last) }
    ensures { result ≡ true → Unbroken (map R.number rows.now) first last }
{
    last < rows.len() && (row_at(rows, last) - row_at(rows, first)) as usize == last - first
}

// The index of the last row of the run that the row of index at stands in. A step is taken while the run has rows for it, and then
// halved: a test for 32 rows of a long run, and few at its end.
fn run_last<R: Row>(rows: &[R], at: usize) -> usize
    requires { (Spaced (map R.number rows.now)) × (at < length rows.now) }
    ensures { Unbroken (map R.number rows.now) at result }
{
    let mut last = at;
    let mut step = 32;
    while step > 0 {
        if unbroken(rows, last, last + step) {
            last += step;
        } else {
            step /= 2;
        }
    }
    last
}

// Whether the run that the row of index at stands in has a step of rows before it, none of which lies before index from.
fn reaches<R: Row>(rows: &[R], from: usize, at: usize, step: usize) -> bool
    requires { (Spaced (map R.number rows.now)) × (from ≤ length rows.now) × (step ≤ 16) }
    ensures { result ≡ true → (step ≤ at) × Unbroken (map R.number rows.now) (at - step) at }
{
    from + step <= at && unbroken(rows, at - step, at)
}

// The index of the first row of the run that the row of index at stands in, or from where the run begins before that. The steps are
// for fewer than 32 rows, as between two blocks of a look ahead.
fn run_first<R: Row>(rows: &[R], from: usize, at: usize) -> usize
    requires { (Spaced (map R.number rows.now)) × (from ≤ at) × (at < length rows.now) }
    ensures { Unbroken (map R.number rows.now) result at }
{
    let mut first = at;
    let mut step = 16;
    while step > 0 {
        if reaches(rows, from, first, step) {
            first -= step;
        } else {
            step /= 2;
        }
    }
    first
}

// A look ahead from the row of index from on: for a block of 32 rows that stand one behind the other there, 32 rows behind it, or 64.
// A run of 63 rows or more that begins at one of the next 64 rows has all rows of one of these blocks, wherever it begins, so that
// none is missed. The run of the first block found is ahead, whole. If none is found, the 64 rows go in one by one.
fn look<R: Row>(rows: &[R], from: usize) -> Outlook
    requires { (Spaced (map R.number rows.now)) × (from < length rows.now) }
    ensures { (Sight (map R.number rows.now) result) × (from < result.stop) }
{
    let mut at = from;
    while at < from + 96 {
        if unbroken(rows, at, at + 31) {
            let start = run_first(rows, from, at);
            let last = run_last(rows, at + 31);
            return Outlook {
                start,
                stop: last + 1,
            };
        }
        at += 32;
    }
    let none = (from + 64).min(rows.len());
    Outlook {
        start: none,
        stop: none,
    }
}

// What is known of the rows ahead of the one of index next: as before while it is in a run or before one. If no run is in sight, the
// next look is due when fewer than 64 rows are left of those that were looked at: a word has no more. What a look answers lies in
// memory and is copied from there, so that what is known stays in registers where no look is due.
fn ahead_of<R: Row>(rows: &[R], next: usize, ahead: Outlook) -> Outlook
    requires { (Spaced (map R.number rows.now)) × (Sight (map R.number rows.now) ahead) × (next ≤ ahead.stop) × (next < length rows.now) }
    ensures { (Sight (map R.number rows.now) result) × (next < result.stop) }
{
    if ahead.stop <= next {
        let seen = look(rows, next);
        return Outlook {
            start: seen.start,
            stop: seen.stop,
        };
    }
    if ahead.start < ahead.stop || next + 64 <= ahead.stop || rows.len() <= ahead.stop {
        return ahead;
    }
    let seen = look(rows, ahead.stop);
    Outlook {
        start: seen.start,
        stop: seen.stop,
    }
}

// The word k with its rows before the run ahead, digit by digit.
fn single_rows<R: Row>(rows: &[R], word: Word, ahead: Outlook, base: u64, k: usize) -> Word
    requires { (Rising base (base + 4294967295) (map R.number rows.now)) × (Sight (map R.number rows.now) ahead) × (word.next ≤ ahead.stop) }
    ensures { Onward (positions_of base (map R.number rows.now)) k ahead.start ahead.stop word result }
{
    let mut bits = word.bits;
    for j in word.next..ahead.start {
        let q = stats::position(row_at(rows, j), base);
        if !in_word(q, k) {
            return Word { bits, next: j };
        }
        bits = with_digit(bits, q);
    }
    Word {
        bits,
        next: word.next.max(ahead.start),
    }
}

// The word k with its rows of the run ahead, by one mask: as many as the word has room for, or the run has.
fn run_rows<R: Row>(rows: &[R], word: Word, ahead: Outlook, base: u64, k: usize) -> Word
    requires { (Rising base (base + 4294967295) (map R.number rows.now)) × (Sight (map R.number rows.now) ahead) × (ahead.start ≤ word.next) × (word.next ≤ ahead.stop) }
    ensures { Onward (positions_of base (map R.number rows.now)) k ahead.stop ahead.stop word result }
{
    let j = word.next;
    if ahead.stop <= j {
        return word;
    }
    let q = stats::position(row_at(rows, j), base);
    if !in_word(q, k) {
        return word;
    }
    let room = 64 - (q % 64) as usize;
    with_run(word, q, room.min(ahead.stop - j))
}

// The word k with its rows up to the end of the run ahead.
fn more_rows<R: Row>(rows: &[R], word: Word, ahead: Outlook, base: u64, k: usize) -> Word
    requires { (Rising base (base + 4294967295) (map R.number rows.now)) × (Sight (map R.number rows.now) ahead) × (word.next ≤ ahead.stop) }
    ensures { Onward (positions_of base (map R.number rows.now)) k ahead.stop ahead.stop word result }
{
    let single = single_rows(rows, word, ahead, base, k);
    if single.next < ahead.start {
        return single;
    }
    run_rows(rows, single, ahead, base, k)
}

// The digits of the word k, whose first row is that of index i: up to the end of one run after the other, until a row stands in
// another word.
fn word_rows<R: Row>(rows: &[R], i: usize, seen: Outlook, base: u64, k: usize) -> Passed
    requires { (Rising base (base + 4294967295) (map R.number rows.now)) × (Cut (positions_of base (map R.number rows.now)) k i) × (Sight (map R.number rows.now) seen) × (i ≤ seen.stop) }
    ensures { (Worded (positions_of base (map R.number rows.now)) k i result.word) × (Sight (map R.number rows.now) result.ahead) × (result.word.next ≤ result.ahead.stop) }
{
    let mut ahead = seen;
    let mut word = Word { bits: 0, next: i };
    while word.next < rows.len() {
        ahead = ahead_of(rows, word.next, ahead);
        word = more_rows(rows, word, ahead, base, k);
        if word.next < ahead.stop {
            return Passed { word, ahead };
        }
    }
    Passed { word, ahead }
}

pub fn bitmap_rows<R: Row>(out: &mut [u8], at: usize, rows: &[R], base: u64, span: u32) -> usize
    requires { (Rising base (base + span) (map R.number rows.now)) × (at + bitmap_length span ≤ length out.old) }
    ensures { Written (bitmap_layout span (positions_of base (map R.number rows.now))) at out.old out.new result }
{
    let mut p = at + 2 * groups_of(span);
    let mut i = 0;
    let mut ahead = Outlook { start: 0, stop: 0 };
    for k in 0..words_of(span) {
        let passed = word_rows(rows, i, ahead, base, k);
        let word = passed.word;
        put_before(out, at, k, i);
        fields::put64(out, p, word.bits);
        i = word.next;
        ahead = passed.ahead;
        p += 8;
    }
    p
}
