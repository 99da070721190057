use thiserror::Error;

/// Why a type has no size, alignment or field offsets.
#[derive(Clone, Copy, Debug, PartialEq, Eq, Error)]
pub enum TypeRefusal {
    #[error("a part of the type has no size")]
    Unsized,
    #[error("the type is nested more than 64 deep")]
    Deep,
    #[error("the type takes more than 2^40 bytes")]
    Huge,
}
