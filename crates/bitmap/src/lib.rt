// The local bitmap form: rows before each 256 positions, then 64-bit words. Every reader answers on any bytes of the right length.

#![tactic(auto)]

ghost use Rattle.std.specs.Prelude.{◌≡◌, ◌+◌, ◌^◌, ◌<◌, ◌≤◌, length, take, ◌==◌, nat_lt};
ghost use Rattle.model.specs.Tests.{both, all};
ghost use Rattle.model.specs.Lists.{has, moved};
ghost use Rattle.model.specs.Answers.{over, rank_in, ranks_in, Walked};
ghost use Rattle.fields.specs.Le.{Bytes};
ghost use Rattle.bitmap.specs.Body.{words_of, groups_of, bitmap_length, number, word_of, exact, bitmap_names, bitmap_accepts};
ghost use Rattle.bitmap.specs.Reading.{bitmap_below, bitmap_place, bitmap_select, bitmap_walk, group_for, Between, Spotted, rest_of, Settled};

use model::Place;

// ---- sizes

pub fn words_of(span: u32) -> usize
    ensures { result ≡ words_of span }
{
    (span as usize).div_ceil(64)
}

pub fn groups_of(span: u32) -> usize
    ensures { result ≡ groups_of span }
{
    words_of(span).div_ceil(4)
}

// ---- what the readers hand on

// A row of a word: the word's index, and the row's number in it.
#[derive(Clone, Copy)]
pub struct Spot {
    pub index: usize,
    pub left: u32,
}

// A word, and what is left of it.
#[derive(Clone, Copy)]
pub struct Cursor {
    pub index: usize,
    pub word: u64,
}

// ---- the readers

// A body of the length that its span asks. `bytes` says of it what the type of a lent slice says: behind a reference to this struct
// a proof has that from nowhere else.
#[derive(Clone, Copy)]
pub struct Bitmap<'a> {
    pub body: &'a [u8],
    pub span: u32,
    ghost sized: { length body.now ≡ bitmap_length span },
    ghost bytes: { Bytes body.now },
}

impl<'a> Bitmap<'a> {
    pub fn new(body: &'a [u8], span: u32) -> Bitmap<'a>
        requires { length body.now ≡ bitmap_length span }
        ensures body { result.body.now ≡ body.now }
        ensures span { result.span ≡ span }
    {
        Bitmap { body, span }
    }

    // The word of index i.
    fn word_at(&self, i: usize) -> u64
        requires { i < words_of self.now.span }
        ensures { result ≡ word_of self.now.body.now self.now.span i }
    {
        fields::read64(self.body, 2 * groups_of(self.span) + 8 * i)
    }

    // The rows of the words from i up to j, of one group.
    fn ones_in(&self, i: usize, j: usize) -> u32
        requires { (i ≤ j) × (j ≤ i + 4) × (j ≤ words_of self.now.span) }
        ensures { Between self.now.body.now self.now.span i j result }
    {
        let mut n: u32 = 0;
        for at in i..j {
            n += word::ones(self.word_at(at));
        }
        n
    }

    // ---- check

    // Whether no digit past the span is set.
    fn within_span(&self) -> bool
        ensures { result ≡ nat_lt (number self.now.body.now self.now.span) (2 ^ self.now.span) }
    {
        let bit = self.span % 64;
        bit == 0 || self.word_at(words_of(self.span) - 1) >> bit == 0
    }

    // Whether each group states the rows before it, and all rows are count. No early exit: the length is known to be right.
    fn groups_right(&self, count: u16) -> bool
        ensures { result ≡ both (all (exact self.now.body.now self.now.span) (groups_of self.now.span)) (length (bitmap_names self.now.body.now self.now.span) == count) }
    {
        let words = words_of(self.span);
        let mut n: u64 = 0;
        let mut ok = true;
        for g in 0..groups_of(self.span) {
            ok &= u64::from(fields::read16(self.body, 2 * g)) == n;
            n += u64::from(self.ones_in(4 * g, (4 * g + 4).min(words)));
        }
        ok & (n == u64::from(count))
    }

    // ---- place and rank

    // The rows below a position of the span: those that its group states before it, and those of the group.
    fn rows_below(&self, p: u32) -> u32
        requires { p < self.now.span }
        ensures { result ≡ bitmap_below self.now.body.now self.now.span p }
    {
        let i = (p / 64) as usize;
        let stated = u32::from(fields::read16(self.body, 2 * (i / 4)));
        let inside = self.ones_in(4 * (i / 4), i) + word::ones_below(self.word_at(i), p % 64);
        stated + inside
    }

    // Whether a position of the span is a row.
    fn is_row(&self, p: u32) -> bool
        requires { p < self.now.span }
        ensures { result ≡ has (bitmap_names self.now.body.now self.now.span) p }
    {
        word::is_set(self.word_at((p / 64) as usize), p % 64)
    }

    pub fn place(&self, count: u16, p: u32) -> Place
        ensures { result ≡ bitmap_place self.now.body.now self.now.span count p }
    {
        if self.span <= p {
            return Place {
                below: u32::from(count),
                present: false,
            };
        }
        Place {
            below: self.rows_below(p),
            present: self.is_row(p),
        }
    }

    // The rank of p, counted in the part that begins at base, or the number that stands for nothing. Rows are counted for a row alone.
    fn rank(&self, count: u16, base: u32, p: u32) -> u32
        ensures { result ≡ rank_in (bitmap_place self.now.body.now self.now.span count) base self.now.span p }
    {
        if model::lies_in(base, self.span, p) && self.is_row(p - base) {
            self.rows_below(p - base)
        } else {
            4294967295
        }
    }

    // The same of many positions.
    pub fn ranks(&self, count: u16, base: u32, positions: &[u32], out: &mut [u32])
        requires { length positions.now ≤ length out.old }
        ensures { out.new ≡ over (ranks_in (bitmap_place self.now.body.now self.now.span count) base self.now.span positions.now) out.old }
    {
        model::answer_each(positions, out, |p| self.rank(count, base, p));
    }

    // ---- select and walk

    // The group that holds ordinal k: the last of those that state at most k rows before them.
    fn group_for(&self, k: u16) -> usize
        requires { 0 < self.now.span }
        ensures { (result ≡ group_for self.now.body.now self.now.span k) × (result < groups_of self.now.span) }
    {
        let groups = groups_of(self.span);
        let past = search::upper(self.body, 0, 2, groups, u32::from(k), false, false);
        past.saturating_sub(1)
    }

    // Where ordinal k stands, if it does: its group by the search, its word by going through the four of the group.
    fn locate(&self, k: u16) -> Option<Spot>
        ensures { Spotted self.now.body.now self.now.span k result }
    {
        if self.span == 0 {
            return None;
        }
        let g = self.group_for(k);
        let end = (4 * g + 4).min(words_of(self.span));
        let mut left = u32::from(k).saturating_sub(u32::from(fields::read16(self.body, 2 * g)));
        for index in 4 * g..end {
            let n = word::ones(self.word_at(index));
            if left < n {
                return Some(Spot { index, left });
            }
            left -= n;
        }
        None
    }

    // The position of ordinal k, and 0 where there is none.
    pub fn select(&self, k: u16) -> u32
        ensures { result ≡ bitmap_select self.now.body.now self.now.span k }
    {
        match self.locate(k) {
            Some(spot) => {
                let place = word::select(self.word_at(spot.index), spot.left);
                (64 * spot.index) as u32 + place
            }
            None => 0,
        }
    }

    // Past the words that are used up, to the next one that names a row, if there is one.
    fn settle(&self, c: Cursor) -> Option<Cursor>
        requires { c.index < words_of self.now.span }
        ensures { Settled self.now.body.now self.now.span c.index c.word result }
    {
        if c.word != 0 {
            return Some(c);
        }
        for index in c.index + 1..words_of(self.span) {
            let word = self.word_at(index);
            if word != 0 {
                return Some(Cursor { index, word });
            }
        }
        None
    }

    // Writes the rows from the cursor on, counted from base, as many as fit or remain, and answers how many.
    fn fill(&self, c: Cursor, base: u32, out: &mut [u32]) -> usize
        requires { c.index < words_of self.now.span }
        ensures { Walked (moved base (take (length out.old) (rest_of self.now.body.now self.now.span c.index c.word))) out.old out.new result }
    {
        let end = out.len();
        let mut at = c;
        for n in 0..end {
            let Some(here) = self.settle(at) else {
                return n;
            };
            let next = word::lowest(here.word);
            out[n] = base.wrapping_add((64 * here.index) as u32 + next.place);
            at = Cursor {
                index: here.index,
                word: next.rest,
            };
        }
        end
    }

    // Writes the rows from ordinal k on, counted from base, as many as fit or remain, and answers how many.
    pub fn walk(&self, k: u16, base: u32, out: &mut [u32]) -> usize
        ensures { Walked (bitmap_walk self.now.body.now self.now.span k base (length out.old)) out.old out.new result }
    {
        match self.locate(k) {
            Some(spot) => {
                let index = spot.index;
                let word = word::skip(self.word_at(index), spot.left);
                self.fill(Cursor { index, word }, base, out)
            }
            None => 0,
        }
    }
}

// Whether the body is an accepted bitmap of the span, with count rows.
pub fn check(body: &[u8], span: u32, count: u16) -> bool
    ensures { result ≡ bitmap_accepts body.now span count }
{
    if body.len() != 2 * groups_of(span) + 8 * words_of(span) {
        return false;
    }
    let bitmap = Bitmap::new(body, span);
    0 < count && u32::from(count) <= span && bitmap.within_span() && bitmap.groups_right(count)
}
