use attr_ids::{PosId, PosList, Sequence, WordList};

/// For each input of a position the facts that were looked at, or `None` where it was not looked at.
pub type LookedList = Sequence<Option<u64>>;

/// What a seat is about.
#[derive(Drop)]
pub enum CoreMode {
    Idle,
    /// It has taken up the position, and looks at its inputs.
    Open { p: PosId, looked: LookedList },
    /// It has to tell these positions that what they read fell.
    Owes { list: PosList },
}

/// One seat of the core machine. Its place in the list of seats is its number.
#[derive(Drop)]
pub struct CoreSeat {
    pub mode: CoreMode,
    /// Positions in whose words the seat's own dirty bit is known to be unset.
    pub known: PosList,
    /// How many dirty words it took up.
    pub took: u64,
    /// How many times it told a position by setting a bit.
    pub told: u64,
}

pub type CoreSeats = Sequence<CoreSeat>;

/// A state of the core machine. The lowest `FACT_BITS` bits of a word are its facts, and bit `DIRTY` + w is the dirty
/// bit of seat w.
#[derive(Drop)]
pub struct CoreState {
    pub words: WordList,
    pub seats: CoreSeats,
}
