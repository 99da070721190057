use attr_ids::NoMemory as MemoryError;
use thiserror::Error;

/// Why a system has no graph.
#[derive(Clone, Copy, Debug, PartialEq, Eq, Error)]
pub enum GraphRefusal {
    /// The lists of inputs together hold more than `EDGE_LIMIT` positions: so many.
    #[error("too many edges: {edges}")]
    TooMany { edges: u64 },
    #[error("out of memory")]
    NoMemory,
}

impl From<MemoryError> for GraphRefusal {
    ghost use Rattle.std.specs.Prelude.{◌≡◌};
    ghost use Rattle.dep_graph.specs.declared.refusal.GraphRefusal.TheVariants.{NoMemory};

    ghost from_gives = { λ _ refusal. refusal ≡ NoMemory };

    fn from(_error: MemoryError) -> GraphRefusal {
        GraphRefusal::NoMemory
    }
}
