// A record of the input: its length, and which line it gets.
ghost use Rattle.std.specs.Prelude.{◌≡◌, ◌+◌, ◌≤◌, length};
ghost use Rattle.rowset.specs.Calls.{checked_of};
ghost use Rattle.listing.specs.Records.{be, sized, next_after, next_of, figures_of, answer_line, line_of};

use rowset::{Refusal, validate};

// The figures of an accepted record.
#[derive(Clone, Copy)]
pub struct Figures {
    pub tag: u8,
    pub span: u32,
    pub rows: u16,
    pub holes: u32,
    pub bytes: u32,
}

// A line of the listing after its header. Listed and Refused are a record's, and the listing goes on; each of the others is its last line.
#[derive(Clone, Copy)]
pub enum Line {
    Listed(Figures),
    Refused,
    Broken,
    Version,
    End,
}

// What stands in front of the bytes at hand: a whole record with that many bytes after its length, a length that no record
// has, or too few bytes to tell.
#[derive(Clone, Copy)]
pub enum Next {
    Record(usize),
    Broken,
    More,
}

// The number of four bytes, the most significant first.
#[tactic(auto, unfolding(crate::specs::Records::be))]
fn big32(b: &[u8], at: usize) -> u32
    requires { at + 4 ≤ length b.now }
    ensures { result ≡ be 4 b.now at }
{
    u32::from_be_bytes([b[at], b[at + 1], b[at + 2], b[at + 3]])
}

// Whether a record can have n bytes after its length: 5 of tag and span, and a body of at most 65,535.
#[tactic(auto, unfolding(crate::specs::Records::sized, model::specs::Tests::both))]
fn is_sized(n: usize) -> bool
    ensures { result ≡ sized n }
{
    5 <= n && n <= 65540
}

// With n the length that was read, and `have` bytes after it at hand.
#[tactic(auto, unfolding(crate::specs::Records::next_after, model::specs::Tests::pick))]
fn next_after(have: usize, n: usize) -> Next
    ensures { result ≡ next_after have n }
{
    if !is_sized(n) {
        Next::Broken
    } else if have < n {
        Next::More
    } else {
        Next::Record(n)
    }
}

#[tactic(auto, unfolding(crate::specs::Records::next_of, model::specs::Tests::pick))]
pub fn next_in(b: &[u8]) -> Next
    ensures { result ≡ next_of b.now }
{
    if b.len() < 4 {
        return Next::More;
    }
    next_after(b.len() - 4, big32(b, 0) as usize)
}

// The one place where figures are computed.
#[tactic(auto, unfolding(crate::specs::Records::figures_of))]
fn figures_of(tag: u8, span: u32, rows: u16, bytes: u32) -> Figures
    ensures { result ≡ figures_of tag span rows bytes }
{
    let count = u32::from(rows);
    let holes = span.saturating_sub(count);
    Figures {
        tag,
        span,
        rows,
        holes,
        bytes,
    }
}

#[tactic(auto, unfolding(crate::specs::Records::answer_line, rowset::specs::Calls::checked_of, model::specs::Tests::pick))]
fn answered(tag: u8, span: u32, bytes: u32, checked: Result<u16, Refusal>) -> Line
    ensures { result ≡ answer_line tag span bytes (checked_of checked) }
{
    match checked {
        Ok(rows) => Line::Listed(figures_of(tag, span, rows, bytes)),
        Err(_) => Line::Refused,
    }
}

// The line of one record, from the bytes after its length.
#[tactic(auto, using(crate::proofs::Sizes::sized_bounds, model::proofs::Taking::tail_is), unfolding(crate::specs::Records::line_of, model::specs::Tests::pick))]
pub fn line_of(b: &[u8]) -> Line
    ensures { result ≡ line_of b.now }
{
    let n = b.len();
    if !is_sized(n) {
        return Line::Broken;
    }
    let tag = b[0];
    let span = big32(b, 1);
    answered(tag, span, (n - 5) as u32, validate(tag, span, &b[5..]))
}
