// A queue of offer keys in a lent slice of words: a max-heap, key i in the words 2i (its high half) and 2i + 1 (its low half).

#![tactic(auto)]

ghost use Rattle.std.specs.Prelude.{MatchOption, IfNone, ◌≡◌, ◌+◌, ◌-◌, ◌*◌, ◌<◌, ◌≤◌, length, take, drop};
ghost use Rattle.queue.specs.Keys.{key, put, Heap};
ghost use Rattle.queue.specs.Steps.{Larger, Settled, Pushed, Popped};

#[tactic(auto, unfolding(crate::specs::Keys::key))]
pub fn load(h: &[u32], i: usize) -> u64
    requires { i * 2 + 1 < length h.now }
    ensures { result ≡ key h.now i }
{
    u64::from(h[i * 2]) * 4294967296 + u64::from(h[i * 2 + 1])
}

#[tactic(auto, unfolding(crate::specs::Keys::put))]
pub fn store(h: &mut [u32], i: usize, k: u64)
    requires { i * 2 + 1 < length h.old }
    ensures { h.new ≡ put h.old i k }
{
    h[i * 2] = (k / 4294967296) as u32;
    h[i * 2 + 1] = (k % 4294967296) as u32;
}

// Puts k into the queue of n keys: a hole at the end rises until the key above it is large enough.
pub fn push(h: &mut [u32], n: usize, k: u64)
    requires n_in_bounds { n * 2 + 1 < length h.old }
    requires heap { Heap h.old n }
    ensures { Pushed h.old n k h.new }
{
    let mut i = n;
    while 0 < i {
        let parent = (i - 1) / 2;
        let above = load(h, parent);
        if k <= above {
            break;
        }
        store(h, i, above);
        i = parent;
    }
    store(h, i, k);
}

// Of the place c and the next, as far as they are below m, the one with the larger key. Which it is follows no pattern, so
// it is added and not branched on.
fn larger(h: &[u32], c: usize, m: usize) -> usize
    requires { (c < m) × (m * 2 ≤ length h.now) }
    ensures { Larger h.now c m result }
{
    if c + 1 < m {
        c + usize::from(load(h, c) < load(h, c + 1))
    } else {
        c
    }
}

// Puts k in the place of the first of m keys: a hole there sinks until the keys below it are small enough.
fn settle(h: &mut [u32], m: usize, k: u64)
    requires m_nonzero { (0 < m) × (m * 2 ≤ length h.old) }
    requires heap { Heap h.old m }
    ensures { Settled h.old m k h.new }
{
    let mut i = 0;
    while i * 2 + 1 < m {
        let child = larger(h, i * 2 + 1, m);
        let below = load(h, child);
        if below <= k {
            break;
        }
        store(h, i, below);
        i = child;
    }
    store(h, i, k);
}

// Takes the largest key out of the queue of n keys. The last key settles in its place.
pub fn pop(h: &mut [u32], n: usize) -> u64
    requires n_nonzero { (0 < n) × (n * 2 ≤ length h.old) }
    requires heap { Heap h.old n }
    ensures { Popped h.old n result h.new }
{
    let top = load(h, 0);
    let m = n - 1;
    if m == 0 {
        return top;
    }
    let last = load(h, m);
    settle(h, m, last);
    top
}

// The same two over the words from base on, for a queue that already waits behind other tables: a `Queue` is empty at first. The
// words in front of base stay as they are.
pub fn push_at(w: &mut [u32], base: usize, n: usize, k: u64)
    requires n_in_bounds { base + (n * 2 + 1) < length w.old }
    requires heap { Heap (drop base w.old) n }
    ensures pushed { Pushed (drop base w.old) n k (drop base w.new) }
    ensures w_unchanged { take base w.new ≡ take base w.old }
{
    push(&mut w[base..], n, k);
}

pub fn pop_at(w: &mut [u32], base: usize, n: usize) -> u64
    requires n_nonzero { (0 < n) × (base + n * 2 ≤ length w.old) }
    requires heap { Heap (drop base w.old) n }
    ensures popped { Popped (drop base w.old) n result (drop base w.new) }
    ensures w_unchanged { take base w.new ≡ take base w.old }
{
    pop(&mut w[base..], n)
}

// A queue over a lent slice of words, empty at first.
#[derive(Drop)]
pub struct Queue<'a> {
    words: &'a mut [u32],
    len: usize,
    ghost fits: { len * 2 ≤ length words.now },
    ghost heap: { Heap words.now len },
}

impl<'a> Queue<'a> {
    pub fn new(words: &'a mut [u32]) -> Queue<'a>
        ensures same_reference { result.words.ghost_name ≡ words.entry.ghost_name }
        ensures words { result.words.now ≡ words.old }
        ensures len { result.len ≡ 0 }
    {
        Queue { words, len: 0 }
    }

    pub fn push(&mut self, k: u64)
        requires { self.old.len * 2 + 1 < length self.old.words.now }
        ensures same_reference { self.new.words.ghost_name ≡ self.old.words.ghost_name }
        ensures size { length self.new.words.now ≡ length self.old.words.now }
        ensures pushed { Pushed self.old.words.now self.old.len k self.new.words.now }
        ensures len { self.new.len ≡ self.old.len + 1 }
    {
        push(self.words, self.len, k);
        self.len += 1;
    }

    // The largest key, if there is one.
    pub fn pop(&mut self) -> Option<u64>
        ensures same_reference { self.new.words.ghost_name ≡ self.old.words.ghost_name }
        ensures size { length self.new.words.now ≡ length self.old.words.now }
        ensures popped { MatchOption result (self.old.len ≡ 0) (λ r. Popped self.old.words.now self.old.len r self.new.words.now) }
        ensures kept { IfNone result (self.new.words.now ≡ self.old.words.now) }
        ensures len { self.new.len ≡ self.old.len - 1 }
    {
        if self.len == 0 {
            return None;
        }
        let n = self.len;
        self.len = n - 1;
        Some(pop(self.words, n))
    }
}
