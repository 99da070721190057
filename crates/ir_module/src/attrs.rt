use attr_ids::{Offsets, Sequence};

/// What a `memory(..)` permits at each location: bit 0 reads, bit 1 writes (LangRef, "Function Attributes").
#[derive(Clone, Copy, PartialEq, Eq)]
pub struct MemoryAttr {
    pub other: u8,
    pub argmem: u8,
    pub inaccessible: u8,
}

/// The attributes written on a function, those of its groups among them (LangRef, "Function Attributes").
#[derive(Clone, Copy, PartialEq, Eq)]
pub struct FuncAttrs {
    pub nounwind: bool,
    pub noreturn: bool,
    pub nofree: bool,
    pub norecurse: bool,
    pub nocallback: bool,
    pub memory: Option<MemoryAttr>,
}

/// The attributes written on a parameter, an argument or a return (LangRef, "Parameter Attributes").
#[derive(Clone, Copy, PartialEq, Eq)]
pub struct ParamAttrs {
    pub nonnull: bool,
    pub nocapture: bool,
    /// Whether a `captures(..)` stands there.
    pub captures: bool,
    pub readnone: bool,
    pub readonly: bool,
    pub writeonly: bool,
    pub returned: bool,
    pub sret: bool,
    pub writable: bool,
    /// In bytes, by the last that is written; 0 for none.
    pub align: u64,
    /// In bytes, by the last that is written; 0 for none.
    pub dereferenceable: u64,
    /// Whether an `align` or a `dereferenceable` there is not as it should be.
    pub bad: bool,
}

pub type ParamAttrsList = Sequence<ParamAttrs>;

/// The attributes written at a call.
#[derive(Drop)]
pub struct CallAttrs {
    pub func: FuncAttrs,
    pub ret: ParamAttrs,
    pub args: ParamAttrsList,
}

/// The offsets, in bytes, at which words are added to a header: at its return, and behind its closing parenthesis.
#[derive(Clone, Copy, PartialEq, Eq)]
pub struct FuncPlaces {
    pub ret: u32,
    pub after: u32,
}

/// The offsets, in bytes, at which words are added to a call.
#[derive(Drop)]
pub struct CallPlaces {
    pub ret: u32,
    pub after: u32,
    pub args: Offsets,
}
