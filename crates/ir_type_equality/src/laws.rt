ghost use Rattle.ir_type_equality.specs.Numbers.{RoundsAreEnough};

/// A round gives two types one number exactly where their contents are alike, as far as the numbers before it tell
/// their parts apart. So each round tells types apart one level deeper: numbers that a round leaves as they are are
/// canonical, and so are those of the 65th round, since no type whose layout is known is nested deeper than 64.
pub fn rounds_are_enough()
    ensures { RoundsAreEnough }
{}
