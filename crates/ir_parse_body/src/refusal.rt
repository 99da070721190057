ghost use Rattle.std.specs.Prelude.{◌≡◌};
ghost use Rattle.ir_parse_body.specs.declared.refusal.SyntaxRefusal.TheVariants as refusal;

use attr_ids::NoMemory;
use thiserror::Error;

/// Why tokens are no part of a module.
#[derive(Clone, Copy, Debug, PartialEq, Eq, Error)]
pub enum SyntaxRefusal {
    /// What the grammar has at this place does not fit from this byte on.
    #[error("syntax error at byte {at}")]
    Syntax { at: u32 },
    #[error("out of memory")]
    NoMemory,
}

impl From<NoMemory> for SyntaxRefusal {
    ghost from_gives = { λ _ e. e ≡ refusal.NoMemory };

    fn from(_error: NoMemory) -> SyntaxRefusal {
        SyntaxRefusal::NoMemory
    }
}
