//! What the bits of a pointer say.
ghost use Rattle.std.specs.Prelude.{◌≡◌};
ghost use Rattle.facts.specs.Kinds.{value_fact, class_fact};
ghost use Rattle.operand_says.specs.Kinds.{kind_of};

use lattice_words::{align_rung, byte_rung, value};

/// The blocks that a pointer may be to, seen from one call.
#[derive(Clone, Copy, PartialEq, Eq)]
pub enum Class {
    OwnAlloca,
    Argument,
    Global,
    Unknown,
}

/// What a bit says of a pointer.
#[derive(Clone, Copy, PartialEq, Eq)]
pub enum Kind {
    NonNull,
    /// Its address is a multiple of so many bytes.
    Aligned(u64),
    /// So many bytes can be reached through it.
    Bytes(u64),
    NotTo(Class),
    /// Something else.
    Other,
}

/// What a bit above the rungs says.
fn class_kind(bit: u32) -> Kind
    ensures { result ≡ kind_of (class_fact bit) }
{
    if bit == value::NOT_OWN_ALLOCA {
        return Kind::NotTo(Class::OwnAlloca);
    }
    if bit == value::NOT_ARGUMENT {
        return Kind::NotTo(Class::Argument);
    }
    if bit == value::NOT_GLOBAL {
        return Kind::NotTo(Class::Global);
    }
    if bit == value::NOT_UNKNOWN {
        return Kind::NotTo(Class::Unknown);
    }
    Kind::Other
}

/// What a bit of a value says.
pub fn says(bit: u32) -> Kind
    ensures { result ≡ kind_of (value_fact bit) }
{
    if bit < value::SAME_AS_PARAMETERS {
        return Kind::Other;
    }
    if bit == value::NONNULL {
        return Kind::NonNull;
    }
    if value::ALIGN_2 <= bit && bit <= value::ALIGN_64 {
        return Kind::Aligned(align_rung(bit - value::ALIGN_2));
    }
    if value::BYTES_1 <= bit && bit <= value::BYTES_1024 {
        return Kind::Bytes(byte_rung(bit - value::BYTES_1));
    }
    class_kind(bit)
}
