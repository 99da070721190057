use attr_ids::{FuncId, Numbers, Sequence};

/// What a value is, but for its origins. An integer is below 2 ^ 64, and an offset too.
#[derive(Clone, Copy, PartialEq, Eq)]
pub enum Datum {
    Int { bits: u64 },
    /// A place in a block of memory, at any offset.
    Ptr { block: u32, offset: u64 },
    Null,
    Undef,
    Poison,
    /// What a landing pad gives.
    Pair,
}

/// A pointer with this mark came into this call as its argument at this place, counted from 0 among all arguments.
#[derive(Clone, Copy, PartialEq, Eq)]
pub struct Mark {
    pub call: u32,
    pub param: u32,
}

pub type MarkList = Sequence<Mark>;

/// A value, and through which arguments of which calls it came. A value that is no pointer has no origins.
#[derive(Drop)]
pub struct Value {
    pub datum: Datum,
    pub origins: MarkList,
}

pub type ValueList = Sequence<Value>;

/// A byte of memory: `Fragment` is the `k`-th, from 0 to 7, of the eight bytes of a pointer.
#[derive(Drop)]
pub enum Byte {
    Number(u8),
    Undef,
    Poison,
    Fragment { k: u8, of: Value },
}

pub type ByteList = Sequence<Byte>;

/// What an outside frame does of its free choice.
#[derive(Drop)]
pub enum Act {
    /// It reads so many bytes from where the pointer points to.
    Read { ptr: Value, size: u64 },
    /// It writes these bytes there.
    Write { ptr: Value, bytes: ByteList },
    /// It reads memory that the module can't name.
    HiddenRead,
    /// It writes memory that the module can't name.
    HiddenWrite,
    /// It makes a block on the heap, at the plain base where `base` is 0.
    New { size: u64, base: u64 },
    /// It frees a block of the heap.
    Free { block: u32 },
    /// It keeps a value, for all outside frames of the run.
    Keep { value: Value },
    /// It enters an open body.
    Enter { func: FuncId, args: ValueList },
    /// It returns to the frame below it.
    Return { value: Option<Value> },
    /// It unwinds into the frame below it.
    Unwind,
}

/// What is left free at one step: an act where an outside frame is on top, and none elsewhere, and the
/// picks of its alternatives in the order in which the step comes to them. A missing pick is 0.
#[derive(Drop)]
pub struct Choice {
    pub picks: Numbers,
    pub act: Option<Act>,
}
