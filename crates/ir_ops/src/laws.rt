ghost use Rattle.ir_ops.specs.Mathematics.{IsIntegerMathematics};

/// The definitions that the calls of this crate answer are the integer mathematics of the operations:
/// sums, differences and products modulo 2 ^ w, quotients with their remainders, single bits, orders
/// and values read with and without a sign.
pub fn table_is_integer_mathematics()
    ensures { IsIntegerMathematics }
{}
