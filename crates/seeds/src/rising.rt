// Whether rows rise strictly, at each width.
ghost use Rattle.std.specs.Prelude.{◌≡◌, map};
ghost use Rattle.gather_core.specs.Gather.{rises};

use model::Row;

pub trait Rises: Row {
    fn rise(rows: &[Self]) -> bool
        ensures { result ≡ rises (map Self.number rows.now) };
}

impl Rises for u64 {
    fn rise(rows: &[u64]) -> bool {
        gather_core::rises(rows)
    }
}

impl Rises for u16 {
    // No branch here depends on the ordinals.
    fn rise(ordinals: &[u16]) -> bool {
        let mut ok = true;
        for i in 1..ordinals.len() {
            ok &= ordinals[i - 1] < ordinals[i];
        }
        ok
    }
}
