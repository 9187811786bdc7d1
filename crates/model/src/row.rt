// A row as it is lent: a position of a whole table in 64 bits, or an ordinal of a block in 16.
ghost use Rattle.std.specs.Prelude.{◌≡◌, ℕ, ◌+◌, ◌%◌, ◌<◌, length, map, get_or};

pub trait Row: Copy {
    ghost number: { Self → ℕ };

    fn wide(self) -> u64
        ensures { result ≡ number self };

    // How far it is to another row, by the lowest 32 digits. It is taken at the row's own width, as in 64 bits the compiled code
    // takes fewer ordinals at once.
    fn step(self, next: Self) -> u32
        ensures { (number self + result) % 4294967296 ≡ number next % 4294967296 };
}

impl Row for u64 {
    ghost number = { λ row. row };

    fn wide(self) -> u64 {
        self
    }

    fn step(self, next: u64) -> u32 {
        (next.wrapping_sub(self) % 4294967296) as u32
    }
}

impl Row for u16 {
    ghost number = { λ row. row };

    fn wide(self) -> u64 {
        u64::from(self)
    }

    fn step(self, next: u16) -> u32 {
        u32::from(next).wrapping_sub(u32::from(self))
    }
}

// The row of index i.
pub fn row_at<R: Row>(rows: &[R], i: usize) -> u64
    requires { i < length rows.now }
    ensures { result ≡ get_or (map R.number rows.now) i 0 }
{
    rows[i].wide()
}
