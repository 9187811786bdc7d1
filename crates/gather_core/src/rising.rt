// Whether rows rise strictly: many at once where their steps are small, else one after the other.
ghost use Rattle.std.specs.Prelude.{◌≡◌, ◌-◌, ◌<◌, ◌≤◌, true, ◌∷◌, length, drop};
ghost use Rattle.gather_core.specs.Gather.{rises};
ghost use Rattle.gather_core.specs.Steps.{Stepped};

// The digits that all of these have: a number less the row at `from`, and each row from there on less the next one, modulo 2^64.
// No branch, so that rows are taken two at a time: for that baseline x86-64 has a subtraction of 64 bits, and no comparison. A
// row is read once and carried on, which takes less time than to read it again from eight bytes before.
fn steps(first: u64, rows: &[u64], from: usize) -> u64
    requires { from ≤ length rows.now }
    ensures { Stepped result (first ∷ drop from rows.now) (length rows.now - from) }
{
    let mut least = u64::MAX;
    let mut before = first;
    for row in &rows[from..] {
        least &= before.wrapping_sub(*row);
        before = *row;
    }
    least
}

// Whether a number and the rows from `from` on are seen to rise without a look at each: few rows, no step of 0 or above 2^48 (the
// number below is 2^64 - 2^48). Such steps come to less than 2^64, so that where one of them wraps around the last row is below
// the number.
pub fn rises_closely(first: u64, rows: &[u64], from: usize) -> bool
    requires { (from ≤ length rows.now) × (0 < length rows.now) }
    ensures { result ≡ true → rises (first ∷ drop from rows.now) ≡ true }
{
    let few = rows.len() <= 65535;
    few && 18446462598732840960 <= steps(first, rows, from) && first <= rows[rows.len() - 1]
}

// Whether rows rise strictly.
pub fn rises(rows: &[u64]) -> bool
    ensures { result ≡ rises rows.now }
{
    match rows.first() {
        None => true,
        Some(first) => rises_closely(*first, rows, 1) || rows.is_sorted_by(|a, b| a < b),
    }
}
