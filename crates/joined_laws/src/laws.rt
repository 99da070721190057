ghost use Rattle.law_premises.specs.Premises.{InHonestRuns};
ghost use Rattle.law_premises.specs.Types.{HasTypes, HasItsBits};
ghost use Rattle.fact_meanings.specs.Runs.{FactsHold};
ghost use Rattle.law_premises.specs.Indices.{HasIndices};
ghost use Rattle.joined_laws.specs.Numbers.{HasNoNumbers, HasNoBytes};

/// In every honest run of a well formed module whose types tell pointers from all else each fact holds of a set that justifies
/// itself, whose facts are bits of the masks, and which says nothing of alignment and of bytes: what it says of segments, of
/// bodies and their memory, of reach, of values, of entries and returns, and of the uses of parameters.
pub fn every_fact_but_numbers_holds()
    ensures { InHonestRuns (λ m held steps. HasTypes m → HasItsBits m held → HasNoNumbers held → FactsHold m held steps) }
{}

/// So does each fact of a set that says nothing of bytes, in a module in which indices of getelementptrs are integers, and those
/// into structs literals: facts of alignment too.
pub fn every_fact_but_bytes_holds()
    ensures { InHonestRuns (λ m held steps. HasTypes m → HasIndices m → HasItsBits m held → HasNoBytes held → FactsHold m held steps) }
{}
