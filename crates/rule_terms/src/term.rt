use attr_ids::PosId;
use sqlite_items::Boxed;

/// A place in the list of terms of a system.
#[derive(Clone, Copy, Default)]
pub struct TermId(pub u64);

/// A term as a system keeps it. It names an input by its number among the inputs of the position
/// that the term belongs to, and each of its parts by a place in the system's list of terms.
#[derive(Clone, Copy)]
pub enum Term {
    Const(u64),
    Word(u32),
    And(TermId, TermId),
    Or(TermId, TermId),
    Unless { input: u32, bit: u32, then: TermId },
    Shift { bytes: u64, of: TermId },
    KeepAlign { step: u64, of: TermId },
    Spread { bit: u32, to: u64, of: TermId },
}

/// A monotone function of the words of positions, to be met into a position's term.
#[derive(Drop)]
pub enum NewTerm {
    /// These bits, whatever the words are.
    Const(u64),
    /// The word of this position.
    Word(PosId),
    /// The bits of both parts.
    And(Boxed<NewTerm>, Boxed<NewTerm>),
    /// The bits of either part.
    Or(Boxed<NewTerm>, Boxed<NewTerm>),
    /// All bits where the bit of the input's word is set, else those of `then`.
    Unless {
        input: PosId,
        bit: u32,
        then: Boxed<NewTerm>,
    },
    /// The part's word after a constant offset of so many bytes, by the ladder of bytes.
    Shift {
        bytes: u64,
        of: Boxed<NewTerm>,
    },
    /// The part's word without the rungs of alignment that a step of so many bytes loses.
    KeepAlign {
        step: u64,
        of: Boxed<NewTerm>,
    },
    /// The bits `to` where the part's bit is set, else none.
    Spread {
        bit: u32,
        to: u64,
        of: Boxed<NewTerm>,
    },
}
