//! Why a text is not accepted.
use attr_ids::NoMemory;
use ir_resolve::NameRefusal;
use ir_token::LexRefusal;
use ir_verify::Fault;

/// The most brackets that may be open at once.
pub const NESTING_LIMIT: u64 = 256;

/// The most functions that a module may have, declared and defined.
pub const FUNCTION_LIMIT: u64 = 4_096;

/// The most parameters of one function, and arguments of one call.
pub const PARAMETER_LIMIT: u64 = 255;

/// The most instructions of a module.
pub const INSTRUCTION_LIMIT: u64 = 1_000_000;

/// What there can be too much of.
#[derive(Clone, Copy, PartialEq, Eq)]
pub enum Limit {
    /// Bytes of the text.
    Bytes,
    Tokens,
    /// Brackets that are open at once.
    Nesting,
    /// How deep a type is nested.
    TypeNesting,
    /// Bytes that a type takes.
    TypeBytes,
    /// Functions, declared and defined.
    Functions,
    /// Parameters of one function, or arguments of one call: the greatest of these numbers.
    Parameters,
    Instructions,
    /// Positions, of which each has a word.
    Words,
    /// Pairs of a position and one that its rules name.
    Edges,
}

/// Why a text is not accepted. Of two causes the earlier in this order is told, but that limits are told where they are found:
/// bytes before tokens, tokens and nesting before the syntax, those of types before the rules, and all others behind the rules.
#[derive(Drop)]
pub enum Refusal {
    /// The text has no list of tokens.
    Lex(LexRefusal),
    /// The tokens are no module: from this byte on nothing fits.
    Syntax { at: u32 },
    /// A name is amiss.
    Name(NameRefusal),
    /// A rule of the verifier fails.
    Verify(Fault),
    /// There is more of something than is allowed, namely so much.
    TooLarge { which: Limit, count: u64 },
    NoMemory,
}

impl From<NoMemory> for Refusal {
    ghost use Rattle.std.specs.Prelude.{◌≡◌};
    ghost use Rattle.accept.specs.declared.refusal.Refusal.TheVariants as refusal;

    ghost from_gives = { λ _ e. e ≡ refusal.NoMemory };

    fn from(_error: NoMemory) -> Refusal {
        Refusal::NoMemory
    }
}
