ghost use Rattle.std.specs.Prelude.{◌≡◌, ◌≤◌, ◌+◌, ◌^◌};

/// The size in bytes, the alignment and the nesting of a type. A size from 2^40 + 1 on is kept as
/// this number.
#[derive(Clone, Copy)]
pub struct Extent {
    pub size: u64,
    pub align: u64,
    pub nesting: u32,
    pub is_sized: bool,
    ghost size_bound: { size ≤ 2 ^ 40 + 1 },
    ghost aligned: { 1 ≤ align },
    ghost align_bound: { align ≤ 8 },
    ghost nesting_bound: { nesting ≤ 64 },
}

/// What a table keeps of a type: that its first `known` parts are laid out and not too deep to be
/// parts, or its extent.
#[derive(Clone, Copy)]
pub enum Standing {
    Waiting { known: usize },
    Laid(Extent),
}
