ghost use Rattle.std.specs.Prelude.{◌≡◌};
ghost use Rattle.ir_token.specs.declared.token.LexRefusal.TheVariants.{NoMemory};

use attr_ids::{Sequence, Span};
use std::alloc::AllocFailed;
use thiserror::Error;

/// What a token is; the LangRef's section "Identifiers" and its syntax name most of these.
#[derive(Clone, Copy, Debug, PartialEq, Eq)]
pub enum Kind {
    /// A letter or `_`, then letters, digits, `_` and `.`.
    Word,
    /// `@` and a name.
    Global,
    /// `%` and a name.
    Local,
    /// `$` and a name.
    Comdat,
    /// Letters, digits, `$`, `.`, `_` and `-`, or a string, and a colon.
    Label,
    /// Digits, with or without `-` before them.
    Int,
    /// A string in double quotes.
    Str,
    /// A string with `c` before it: a constant of bytes.
    CStr,
    /// `#` and digits: a group of attributes.
    Group,
    /// `!` and digits, or `!` and a name of metadata.
    Meta,
    /// One of `( ) [ ] { } < > , =`.
    Punct,
    /// `...`
    Dots,
    /// A text whose inside is not read: metadata, a comdat, or a debug record.
    Opaque,
}

/// One token, and the bytes of the text that it is.
#[derive(Clone, Copy, Debug, PartialEq, Eq)]
pub struct Token {
    pub kind: Kind,
    pub span: Span,
}

/// The tokens of a text in its order.
pub type Tokens = Sequence<Token>;

/// Why a text has no token list, with offsets in bytes from 0.
#[derive(Clone, Copy, Debug, PartialEq, Eq, Error)]
pub enum LexRefusal {
    /// No token can be taken at this byte: none begins, an Opaque that begins has no end, or the name
    /// that is written there is none.
    #[error("no token begins at byte {at}")]
    BadByte { at: u32 },
    /// A string that begins here, or behind the one byte here, is not closed.
    #[error("the string at byte {at} has no end")]
    OpenString { at: u32 },
    /// This token belongs to what is left out of the profile.
    #[error("the token from byte {} to byte {} is left out", .word.from, .word.to)]
    LeftOut { word: Span },
    /// The text has this many tokens, which is more than 16,000,000.
    #[error("{count} tokens are too many")]
    TooMany { count: u64 },
    #[error("out of memory")]
    NoMemory,
}

impl<T: Drop> From<AllocFailed<T>> for LexRefusal {
    ghost from_gives = { λ _ e. e ≡ NoMemory };

    fn from(_error: AllocFailed<T>) -> LexRefusal {
        LexRefusal::NoMemory
    }
}
