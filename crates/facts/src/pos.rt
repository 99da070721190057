use attr_ids::{FuncId, SegId, ValueId};

/// What a word of facts speaks of.
#[derive(Clone, Copy, PartialEq, Eq)]
pub enum Pos {
    /// A segment: whether a run comes to it.
    Segment(SegId),
    /// A body: what holds of each call that runs it.
    Function(FuncId),
    /// A parameter of a body, or the result of an instruction.
    Value(ValueId),
    /// What a pointer parameter of a body, by its number, has at each entry.
    Entry(FuncId, u8),
    /// What a body returns.
    Return(FuncId),
    /// Which bodies a row does not reach by calls: the row, and the number of its word. Rows are
    /// numbered as bodies are, in module order; the last row is that of the outside.
    Reach(u32, u32),
    /// What one segment does of what the facts of its body say.
    Effect(SegId),
}
