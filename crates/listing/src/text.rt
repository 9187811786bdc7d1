// The bytes of the listing's lines, put into a lent slice.
ghost use Rattle.std.specs.Prelude.{◌≡◌, ◌+◌, ◌%◌, ◌≤◌, length, ◌∷◌, ◌++◌};
ghost use Rattle.std.proofs.lemmas.List.Edits.{sets};
ghost use Rattle.listing.specs.Text.{Put, ascii, decimal, places, figures_text, header_text, text_of};

use crate::records::{Figures, Line};

// How many digits v has, 1 to 20.
#[tactic(auto, using(crate::proofs::Spelling::decimal_length, crate::proofs::Spelling::digits_none), unfolding(crate::specs::Text::decimal))]
fn width(v: u64) -> usize
    ensures { result ≡ length (decimal v) }
{
    match v.checked_ilog10() {
        Some(k) => k as usize + 1,
        None => 1,
    }
}

fn digit(v: u64) -> u8
    ensures { result ≡ 48 + v % 10 }
{
    48 + (v % 10) as u8
}

// The last n digits of v, from the last on: their places are known before their values.
fn put_places(out: &mut [u8], at: usize, n: usize, v: u64)
    requires { at + n ≤ length out.old }
    ensures { out.new ≡ sets out.old at (places n v) }
{
    let mut rest = v;
    for left in (0..n).rev() {
        out[at + left] = digit(rest);
        rest /= 10;
    }
}

#[tactic(auto, using(crate::proofs::Spelling::decimal_short))]
fn put_decimal(out: &mut [u8], at: usize, v: u64) -> usize
    requires { at + 20 ≤ length out.old }
    ensures { Put 20 out.old at (decimal v) out.new result }
{
    let n = width(v);
    put_places(out, at, n, v);
    at + n
}

// A space and a number.
fn put_spaced(out: &mut [u8], at: usize, v: u64) -> usize
    requires { at + 21 ≤ length out.old }
    ensures { Put 21 out.old at (32 ∷ decimal v) out.new result }
{
    out[at] = b' ';
    put_decimal(out, at + 1, v)
}

fn put_word(out: &mut [u8], at: usize, word: &[u8]) -> usize
    requires { at + length word.now ≤ length out.old }
    ensures { Put (length word.now) out.old at word.now out.new result }
{
    let end = at + word.len();
    out[at..end].copy_from_slice(word);
    end
}

fn put_figures(out: &mut [u8], at: usize, f: Figures) -> usize
    requires { at + 105 ≤ length out.old }
    ensures { Put 105 out.old at (figures_text f) out.new result }
{
    let tag = put_spaced(out, at, u64::from(f.tag));
    let span = put_spaced(out, tag, u64::from(f.span));
    let rows = put_spaced(out, span, u64::from(f.rows));
    let holes = put_spaced(out, rows, u64::from(f.holes));
    put_spaced(out, holes, u64::from(f.bytes))
}

fn put_listed(out: &mut [u8], at: usize, f: Figures, k: u64) -> usize
    requires { at + 126 ≤ length out.old }
    ensures { Put 126 out.old at (text_of (Line.Listed f) k) out.new result }
{
    let number = put_decimal(out, at, k);
    let figures = put_figures(out, number, f);
    put_word(out, figures, b"\n")
}

fn put_refused(out: &mut [u8], at: usize, k: u64) -> usize
    requires { at + 29 ≤ length out.old }
    ensures { Put 29 out.old at (text_of Line.Refused k) out.new result }
{
    let number = put_decimal(out, at, k);
    put_word(out, number, b" refused\n")
}

// A word and the number of records, for the last lines.
fn put_last(out: &mut [u8], at: usize, word: &[u8], k: u64) -> usize
    requires { at + (length word.now + 21) ≤ length out.old }
    ensures { Put (length word.now + 21) out.old at (word.now ++ decimal k ++ ascii "\n") out.new result }
{
    let end = put_word(out, at, word);
    let number = put_decimal(out, end, k);
    put_word(out, number, b"\n")
}

// The line that comes after k records.
pub fn put_line(out: &mut [u8], at: usize, line: Line, k: u64) -> usize
    requires { at + 128 ≤ length out.old }
    ensures { Put 128 out.old at (text_of line k) out.new result }
{
    match line {
        Line::Listed(f) => put_listed(out, at, f, k),
        Line::Refused => put_refused(out, at, k),
        Line::Broken => put_last(out, at, b"broken ", k),
        Line::Version => put_word(out, at, b"version\n"),
        Line::End => put_last(out, at, b"end ", k),
    }
}

pub fn put_header(out: &mut [u8], at: usize) -> usize
    requires { at + 128 ≤ length out.old }
    ensures { Put 128 out.old at header_text out.new result }
{
    put_word(out, at, b"k tag span rows holes bytes\n")
}
