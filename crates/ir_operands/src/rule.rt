ghost use Rattle.std.specs.Prelude.{◌≡◌};
ghost use Rattle.ir_operands.specs.Constants as spec;

/// Where an operand is written, as far as its type depends on it.
#[derive(Clone, Copy)]
pub enum Site {
    /// An operand of an instruction, or a constant of a function's header: scalars alone.
    Plain,
    /// An arm of a phi or the operand of a `resume`: also the type `{ ptr, i32 }`.
    Pair,
    /// The operand of a `filter` clause: aggregates too.
    Filter,
    /// The initial value of a global: aggregates too, also in constant expressions.
    Initial,
}

/// A rule that speaks of a constant and of all its parts.
#[derive(Clone, Copy)]
pub enum ConstantRule {
    /// The parts of constant expressions are scalars and no aggregates.
    ScalarParts,
    /// The same in an initial value, where the parts are free: constant getelementptrs alone can break it.
    FreeParts,
    /// The element type of a getelementptr has a size.
    Sized,
    /// A constant fits the kind of the type that is written for it.
    Fitting,
    /// A getelementptr is indexed as its types are.
    Indexed,
    /// An integer literal fits its width.
    InRange,
}

impl ConstantRule {
    /// The number by which the program names the rule.
    pub fn number(self) -> u8
        ensures { result ≡ spec.number self }
    {
        match self {
            ConstantRule::ScalarParts | ConstantRule::FreeParts => 1,
            ConstantRule::Sized => 2,
            ConstantRule::Fitting => 7,
            ConstantRule::Indexed => 11,
            ConstantRule::InRange => 17,
        }
    }
}

impl Site {
    /// The rule that speaks of the parts of what stands there.
    pub fn parts_rule(self) -> ConstantRule
        ensures { result ≡ spec.parts_rule self }
    {
        match self {
            Site::Initial => ConstantRule::FreeParts,
            _ => ConstantRule::ScalarParts,
        }
    }
}
