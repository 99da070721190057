ghost use Rattle.std.specs.Prelude.{◌≡◌, ℕ};
ghost use Rattle.ir_verify.specs.Rules as spec;

/// A rule of the verifier.
#[derive(Clone, Copy)]
pub enum Rule {
    V1,
    V2,
    V3,
    V4,
    V5,
    V6,
    V7,
    V8,
    V9,
    V10,
    V11,
    V12,
    V13,
    V14,
    V15,
    V16,
    V17,
    V18,
    V19,
    V20,
    V21,
}

impl Rule {
    /// The number by which the program names the rule.
    pub fn number(self) -> u8
        ensures { result ≡ spec.number self }
    {
        match self {
            Rule::V1 => 1,
            Rule::V2 => 2,
            Rule::V3 => 3,
            Rule::V4 => 4,
            Rule::V5 => 5,
            Rule::V6 => 6,
            Rule::V7 => 7,
            Rule::V8 => 8,
            Rule::V9 => 9,
            Rule::V10 => 10,
            Rule::V11 => 11,
            Rule::V12 => 12,
            Rule::V13 => 13,
            Rule::V14 => 14,
            Rule::V15 => 15,
            Rule::V16 => 16,
            Rule::V17 => 17,
            Rule::V18 => 18,
            Rule::V19 => 19,
            Rule::V20 => 20,
            Rule::V21 => 21,
        }
    }
}
