// Words of 64 binary digits. What a word names is one list, `bits_of word`: its set places, rising.

#![tactic(auto)]

ghost use Rattle.std.specs.Prelude.{◌≡◌, ◌∷◌, ◌+◌, ◌<◌, ◌≤◌, length, get_or, drop};
ghost use Rattle.model.specs.Lists.{has, range};
ghost use Rattle.word.specs.Bits.{bits_from, bits_of, num_from, place_in, Wanted, Halved};

// How many places below `place` are set.
pub fn ones_below(word: u64, place: u32) -> u32
    requires { place < 64 }
    ensures { (result ≡ length (bits_from place 0 word)) × (result ≤ place) }
{
    ((word << (63 - place)) << 1).count_ones()
}

// How many places are set.
pub fn ones(word: u64) -> u32
    ensures { (result ≡ length (bits_of word)) × (result ≤ 64) }
{
    word.count_ones()
}

// Whether `place` is set.
pub fn is_set(word: u64, place: u32) -> bool
    requires { place < 64 }
    ensures { result ≡ has (bits_of word) place }
{
    (word >> place) % 2 == 1
}

// The word whose n places from `low` on are set.
pub fn mask(low: u32, n: u32) -> u64
    requires { (1 ≤ n) × (low + n ≤ 64) }
    ensures { result ≡ num_from 0 (range low n) }
{
    (u64::MAX >> (64 - n)) << low
}

// A half of a part of a word, in which the set place number `k` is wanted; its lowest digit is counted from `base`.
#[derive(Clone, Copy)]
pub struct Half {
    pub word: u64,
    pub k: u32,
    pub base: u32,
}

// The half that holds the wanted place. Both halves have the same width, so that only values turn on the choice and no branch.
fn half_of(word: u64, width: u32, k: u32, base: u32) -> Half
    requires { (1 < width) × (Wanted word width k base) }
    ensures { Halved word width k base result }
{
    let half = width / 2;
    let low = ones_below(word, half);
    if k < low {
        Half { word, k, base }
    } else {
        Half {
            word: word >> half,
            k: k - low,
            base: base + half,
        }
    }
}

// The wanted place among the `width` lowest digits: goes on in one half, until one digit is left. It calls itself once and
// with numbers, not with the struct, so that the compiler makes straight code of the six turns.
fn select_in(word: u64, width: u32, k: u32, base: u32) -> u32
    requires { Wanted word width k base }
    ensures { result ≡ place_in word width k base }
{
    if width <= 1 {
        return base;
    }
    let h = half_of(word, width, k, base);
    select_in(h.word, width / 2, h.k, h.base)
}

// The set place number `k`.
pub fn select(word: u64, k: u32) -> u32
    requires { k < length (bits_of word) }
    ensures { (result ≡ get_or (bits_of word) k 0) × (result < 64) }
{
    select_in(word, 64, k, 0)
}

// The lowest set place, and the word without it.
#[derive(Clone, Copy)]
pub struct Next {
    pub place: u32,
    pub rest: u64,
}

pub fn lowest(word: u64) -> Next
    requires { 0 < word }
    ensures { (bits_of word ≡ result.place ∷ bits_of result.rest) × (result.place < 64) }
{
    Next {
        place: word.trailing_zeros(),
        rest: word & (word - 1),
    }
}

// The word without its n lowest set places.
pub fn skip(word: u64, n: u32) -> u64
    requires { n ≤ length (bits_of word) }
    ensures { bits_of result ≡ drop n (bits_of word) }
{
    let mut rest = word;
    for _ in 0..n {
        rest = lowest(rest).rest;
    }
    rest
}
