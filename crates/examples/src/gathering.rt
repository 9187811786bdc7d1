// Document 01's pages and rows, gathered into one record by the calls that lend it.
use crate::{say, say16};
use gather::{Gatherer, Step};
use std::io::Stdout;

// The number of a refusal, or 0; the record that is left; and the table that is left.
fn say_step(stdout: Stdout, s: Step, table: &[u16; 3]) {
    match s.answer {
        Ok(()) => say(stdout, 0),
        Err(refusal) => say(stdout, u64::from(u8::from(refusal))),
    }
    let g = s.after;
    say(stdout, g.entries as u64);
    say(stdout, g.rows as u64);
    say(stdout, g.first);
    say(stdout, g.last);
    say16(stdout, table[0]);
    say16(stdout, table[1]);
    say16(stdout, table[2]);
}

fn record(entries: usize, rows: usize, first: u64, last: u64) -> Gatherer {
    Gatherer {
        entries,
        rows,
        first,
        last,
    }
}

// Rows 0 and 65534 as one page are one seed.
fn near_page(stdout: Stdout) {
    let mut table = [9u16; 3];
    say_step(
        stdout,
        gather::lend_page(record(0, 0, 0, 0), &mut table, &[0, 65534]),
        &table,
    );
}

// Rows 0 and 65535 are two. Then test 12, and a page that is empty.
fn far_page(stdout: Stdout) {
    let mut table = [9u16; 3];
    let two = gather::lend_page(record(0, 0, 0, 0), &mut table, &[0, 65535]);
    say_step(stdout, two, &table);
    say_step(
        stdout,
        gather::lend_page(record(4, 4, 0, 9), &mut table, &[]),
        &table,
    );
    let g = two.after;
    say_step(stdout, gather::lend_page(g, &mut table, &[]), &table);
}

pub(crate) fn pages(stdout: Stdout) {
    near_page(stdout);
    far_page(stdout);
}

// A row put behind the record, and what is left.
fn add(stdout: Stdout, g: Gatherer, table: &mut [u16; 3], row: u64) -> Gatherer {
    let s = gather::lend_row(g, table, row);
    say_step(stdout, s, table);
    s.after
}

// Rows after seeds that end at 1 and 2, the second at row 65535: not above it (3); a window of its own; another, for which
// there is no room (11); one that joins; and one more than 65,535 rows (2).
pub(crate) fn rows(stdout: Stdout) {
    let mut table = [1, 2, 9];
    let mut g = record(2, 2, 65535, 65535);
    g = add(stdout, g, &mut table, 65535);
    g = add(stdout, g, &mut table, 65536);
    g = add(stdout, g, &mut table, 70000);
    add(stdout, g, &mut table, 65537);
    add(stdout, record(1, 65535, 0, 70000), &mut table, 70001);
}
