// The arrays that a case is run in. Each case has its own, so nothing of an earlier case is left in them.
ghost use Rattle.std.specs.Prelude.{◌≡◌, length};

pub(crate) fn row_space() -> [u64; 65537]
    ensures { 65537 ≡ length result }
{
    [0; 65537]
}

pub(crate) fn ordinal_space() -> [u16; 65536]
    ensures { 65536 ≡ length result }
{
    [0; 65536]
}

pub(crate) fn walk_space() -> [u32; 65535]
    ensures { 65535 ≡ length result }
{
    [0; 65535]
}

// Workspace for 600 seeds.
pub(crate) fn work_space() -> [u32; 14400]
    ensures { 14400 ≡ length result }
{
    [0; 14400]
}

// An output that is not all 0, so that a body of zeros is seen to be written.
pub(crate) fn out_space() -> [u8; 65536]
    ensures { 65536 ≡ length result }
{
    [165; 65536]
}
