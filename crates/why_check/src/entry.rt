use attr_ids::{PosId, Sequence, WordList};

/// Facts that are taken from the word of a position.
#[derive(Clone, Copy)]
pub struct Entry {
    pub p: PosId,
    pub bits: u64,
}

pub type EntryList = Sequence<Entry>;

/// What a list of entries is found to be.
#[derive(Drop)]
pub enum Verdict {
    /// A complete removal, which leaves these words.
    Yes { words: WordList },
    /// No removal: the entry number `at`, from 0, is the first that may not be removed.
    No { at: u32 },
    /// A removal that leaves facts of a position which the words left do not give, `p` the least such one.
    Short { p: PosId },
}
