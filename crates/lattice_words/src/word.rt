//! What the bits of every word are for: facts below, one bit for each worker above.

/// How many bits are for facts, from bit 0 on.
pub const FACT_BITS: u32 = 47;

/// All bits that are for facts.
pub const FACTS: u64 = (1 << FACT_BITS) - 1;

/// The bits of a word that a change of its facts leaves as they are.
pub const KEPT: u64 = !FACTS;

/// The bit that stays 0.
pub const UNUSED: u32 = FACT_BITS;

/// The bit that says that the word is to be looked at by worker 0; worker w has the bit `DIRTY` + w.
pub const DIRTY: u32 = UNUSED + 1;

/// How many workers have such a bit.
pub const WORKERS: u32 = 16;

/// The bits of a word below those of the workers.
pub const CLEAN: u64 = (1 << DIRTY) - 1;

/// The bits of all workers.
pub const ALL_DIRTY: u64 = !CLEAN;

const _: () = prove!(DIRTY + WORKERS == u64::BITS);
