use attr_ids::NoMemory as MemoryError;
use thiserror::Error;

/// Why the positions of a module are not numbered.
#[derive(Clone, Copy, Debug, PartialEq, Eq, Error)]
pub enum PosRefusal {
    /// The module has more than `WORD_LIMIT` positions: so many.
    #[error("too many words: {words}")]
    TooMany { words: u64 },
    #[error("out of memory")]
    NoMemory,
}

impl From<MemoryError> for PosRefusal {
    ghost use Rattle.std.specs.Prelude.{◌≡◌};
    ghost use Rattle.positions.specs.declared.refusal.PosRefusal.TheVariants.{NoMemory};

    ghost from_gives = { λ _ refusal. refusal ≡ NoMemory };

    fn from(_error: MemoryError) -> PosRefusal {
        PosRefusal::NoMemory
    }
}
