// Bodies from rows, written into a lent slice. What writes a layout, or a part of one, answers the place behind it.
// Here is what asks nothing of how rows are lent; the loops over rows of either width are the crate `emit_rows`.

#![tactic(auto)]

ghost use Rattle.std.specs.Prelude.{◌≡◌, [], ◌∷◌, ◌+◌, ◌*◌, ◌/◌, ◌%◌, ◌≤◌, eqb, length};
ghost use Rattle.fields.specs.Le.{put, width_of};
ghost use Rattle.model.specs.Lists.{range, run};
ghost use Rattle.lists.specs.Lists.{list_layout};
ghost use Rattle.runs.specs.Runs.{runs_bytes};
ghost use Rattle.emit.specs.Written.{Written};
ghost use Rattle.emit.specs.Words.{with_digit, with_run, counted_at};

// A field of 4 bytes where `wide`, else of 2: the lowest digits of v that it has room for.
pub fn put_field(out: &mut [u8], at: usize, v: u32, wide: bool)
    requires { at + width_of wide ≤ length out.old }
    ensures { out.new ≡ put (width_of wide) out.old at v }
{
    if wide {
        fields::put32(out, at, v);
    } else {
        fields::put16(out, at, (v % 65536) as u16);
    }
}

// ---- lists and missing: the positions of a run, or of the holes between two, as items

pub fn list_run(out: &mut [u8], at: usize, start: u32, size: u32, wide: bool) -> usize
    requires { (at + size * width_of wide ≤ length out.old) × (start + size ≤ 4294967296) }
    ensures { Written (list_layout (width_of wide) (range start size)) at out.old out.new result }
{
    let w = fields::width(wide);
    let mut p = at;
    for i in 0..size {
        put_field(out, p, start + i, wide);
        p += w;
    }
    p
}

// ---- runs

// The entry of a run that has rows before it.
pub fn run_entry(out: &mut [u8], at: usize, start: u32, size: u16, before: u16, wide: bool) -> usize
    requires { at + (width_of wide + 4) ≤ length out.old }
    ensures { Written (runs_bytes (width_of wide) before (run start size ∷ [])) at out.old out.new result }
{
    let p = at + fields::width(wide);
    put_field(out, at, start, wide);
    fields::put16(out, p, size);
    fields::put16(out, p + 2, before);
    p + 4
}

// ---- bitmaps, word by word

// The digits of the rows that stand in one word, and the index of the first row behind them.
#[derive(Clone, Copy)]
pub struct Word {
    pub bits: u64,
    pub next: usize,
}

// What is known of the rows ahead: those from index start up to index stop stand one behind the other, where there are any, and
// those before start are to go in one by one.
#[derive(Clone, Copy)]
pub struct Outlook {
    pub start: usize,
    pub stop: usize,
}

// A word that is through, and what is known of the rows ahead of it.
#[derive(Clone, Copy)]
pub struct Passed {
    pub word: Word,
    pub ahead: Outlook,
}

// The digits of a word with one more, by the position that it stands for.
pub fn with_digit(bits: u64, position: u32) -> u64
    ensures { result ≡ with_digit bits position }
{
    bits | (1 << (position % 64))
}

// A word with n more rows, which stand one behind the other from a position on: one mask, however many they are.
pub fn with_run(word: Word, position: u32, n: usize) -> Word
    requires { (1 ≤ n) × (position % 64 + n ≤ 64) × (word.next ≤ 4294967295) }
    ensures { result ≡ with_run word position n }
{
    Word {
        bits: word.bits | word::mask(position % 64, n as u32),
        next: word.next + n,
    }
}

// Whether a position stands in the word k.
pub fn in_word(position: u32, k: usize) -> bool
    ensures { result ≡ eqb (position / 64) k }
{
    (position / 64) as usize == k
}

// Each fourth word begins a group: the rows before it go in front of the words.
pub fn put_before(out: &mut [u8], at: usize, k: usize, rows: usize)
    requires { at + 2 * (k / 4) + 2 ≤ length out.old }
    ensures { out.new ≡ counted_at out.old at k rows }
{
    if k % 4 == 0 {
        fields::put16(out, at + 2 * (k / 4), (rows % 65536) as u16);
    }
}
