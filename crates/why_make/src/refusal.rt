use attr_ids::NoMemory as MemoryError;

/// The greatest number of entries of a list that is answered.
pub const MAX_ENTRIES: u64 = 8_000_000;

/// Why a system has no list of entries.
#[derive(Clone, Copy)]
pub enum WhyRefusal {
    /// The list has more than `MAX_ENTRIES` entries; `count` is the first number above it.
    TooMany { count: u64 },
    NoMemory,
}

impl From<MemoryError> for WhyRefusal {
    ghost use Rattle.std.specs.Prelude.{◌≡◌};
    ghost use Rattle.why_make.specs.declared.refusal.WhyRefusal.TheVariants.{NoMemory};

    ghost from_gives = { λ _ refusal. refusal ≡ NoMemory };

    fn from(_error: MemoryError) -> WhyRefusal {
        WhyRefusal::NoMemory
    }
}
