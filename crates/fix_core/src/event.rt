use attr_ids::{PosId, Sequence};

/// One atomic step of the seat `w`.
#[derive(Clone, Copy)]
pub enum CoreEvent {
    /// Takes the position up if it is dirty, and clears its dirty bits.
    Take { w: u8, p: PosId },
    /// Looks at the input number `i` of the position taken up.
    Look { w: u8, i: u32 },
    /// Cuts the position taken up to what its term leaves it.
    Cut { w: u8 },
    /// Tells the owed position `d`.
    Tell { w: u8, d: PosId },
    /// Sees that the own dirty bit of the position is unset.
    Clear { w: u8, p: PosId },
}

pub type EventList = Sequence<CoreEvent>;
