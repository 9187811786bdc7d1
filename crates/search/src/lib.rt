// The one binary search of the library, over the fields of a table that lies in a body.

#![tactic(auto)]

ghost use Rattle.std.specs.Prelude.{◌≡◌, ℕ, ◌+◌, ◌*◌, ◌≤◌, ◌<◌, cond, leb, length};
ghost use Rattle.fields.specs.Le.{width_of};
ghost use Rattle.search.specs.Search.{find, entry, up_to, allowed};

// What is added to the key for field i: nothing or, where gaps are counted, i. No field reaches 2^32, so that what is above it
// need not be added.
fn extra(i: usize, gaps: bool) -> u64
    ensures { (result ≤ 4294967296) × ((v key : ℕ) → v < 4294967296 → leb v (key + result) ≡ leb v (allowed gaps key i)) }
{
    if gaps { (i as u64).min(4294967296) } else { 0 }
}

// 1 where v is at most key or, where gaps are counted, at most key + i, else 0. It is a digit of a difference and not a
// comparison: nothing is known beforehand of how one comes out, and the compiler made a jump of it, which waits for each field.
fn reached(v: u32, key: u32, i: usize, gaps: bool) -> usize
    ensures { (result ≡ cond (leb v (allowed gaps key i)) 1 0) × (result ≤ 1) }
{
    ((8589934592 + extra(i, gaps) + u64::from(key) - u64::from(v)) / 8589934592) as usize
}

// The first of n fields that is above key or, where gaps are counted, the first i whose field is above key + i.
pub fn upper(
    body: &[u8],
    base: usize,
    stride: usize,
    n: usize,
    key: u32,
    wide: bool,
    gaps: bool,
) -> usize
    requires { (i : ℕ) → i < n → base + i * stride + width_of wide ≤ length body.now }
    ensures { result ≡ find (up_to gaps (entry (width_of wide) body.now base stride) key) 0 n }
{
    let mut lo = 0;
    let mut len = n;
    while 0 < len {
        let half = len / 2;
        let mid = lo + half;
        let up = reached(
            fields::field(body, base + mid * stride, wide),
            key,
            mid,
            gaps,
        );
        lo += up * (half + 1);
        len = (len - up) / 2;
    }
    lo
}
