ghost use Rattle.std.specs.Prelude.{◌≡◌, ◌≤◌, ◌<◌, ◌+◌, ◌^◌, ◌∷◌, ◌++◌, [], List, Bool, if◌then◌else◌};
ghost use Rattle.std.specs.Int.{next_multiple_of};

use crate::standing::Extent;

/// The greatest size that a type may have, in bytes.
pub const MAX_SIZE: u64 = 1 << 40;

/// Fields of a struct that are placed one after the other: where they end, and the greatest of their
/// alignments and nestings.
#[derive(Clone, Copy)]
pub struct Placing {
    pub end: u64,
    pub align: u64,
    pub nesting: u32,
    pub is_sized: bool,
    ghost end_bound: { end ≤ 2 ^ 40 + 1 },
    ghost aligned: { 1 ≤ align },
    ghost align_bound: { align ≤ 8 },
    ghost nesting_bound: { nesting < 64 },
}

impl Placing {
    ghost use Rattle.ir_types.specs.Layout.{Layout, struct_of};
    ghost use Rattle.ir_types.specs.Placing.{HasPlaced};
    ghost use Rattle.ir_types.specs.Standing.{Shows};

    /// No field is placed.
    pub fn new() -> Placing
        ensures { (packed : Bool) → HasPlaced packed [] result }
    {
        Placing {
            end: 0,
            align: 1,
            nesting: 0,
            is_sized: true,
        }
    }

    /// Where the next field begins.
    pub fn start(self, packed: bool, field: Extent) -> u64
        ensures bound { result ≤ 2 ^ 40 + 9 }
        ensures value { result ≡ (if packed then self.end else next_multiple_of self.end field.align) }
    {
        if packed {
            self.end
        } else {
            self.end.next_multiple_of(field.align)
        }
    }

    /// Places one more field.
    pub fn with(self, packed: bool, field: Extent) -> Placing
        requires { field.nesting < 64 }
        ensures { (fields : List Layout) (l : Layout) → HasPlaced packed fields self → Shows l field → HasPlaced packed (fields ++ l ∷ []) result }
    {
        let end = self.start(packed, field) + field.size;
        Placing {
            end: end.min(MAX_SIZE + 1),
            align: self.align.max(field.align),
            nesting: self.nesting.max(field.nesting),
            is_sized: self.is_sized && field.is_sized,
        }
    }

    /// The extent of the struct that has these fields, with its padding at the end.
    pub fn finish(self, packed: bool) -> Extent
        ensures { (fields : List Layout) → HasPlaced packed fields self → Shows (struct_of packed fields) result }
    {
        let size = if packed {
            self.end
        } else {
            self.end.next_multiple_of(self.align)
        };
        Extent {
            size: size.min(MAX_SIZE + 1),
            align: if packed { 1 } else { self.align },
            nesting: self.nesting + 1,
            is_sized: self.is_sized,
        }
    }
}
