ghost use Rattle.std.specs.Prelude.{◌≡◌, ◌^◌, ◌<◌};
ghost use Rattle.ir_ops.specs.Residue.{IsWidth};
ghost use Rattle.ir_ops.specs.Pred.{comparison};

use crate::bits::with_sign;

/// A comparison of two integers: those that begin with `U` read them without a sign, those that
/// begin with `S` with one.
#[derive(Clone, Copy, PartialEq, Eq)]
pub enum Pred {
    Eq,
    Ne,
    Ugt,
    Uge,
    Ult,
    Ule,
    Sgt,
    Sge,
    Slt,
    Sle,
}

/// Compares two numbers of `W` bits.
pub fn compare<const W: u32>(p: Pred, a: u64, b: u64) -> bool
    requires width { IsWidth W }
    requires left { a < 2 ^ W }
    requires right { b < 2 ^ W }
    ensures { result ≡ comparison W p a b }
{
    compare_at(W, p, a, b)
}

/// Compares two numbers of `width` bits, a width that is known only at run time.
pub fn compare_at(width: u32, p: Pred, a: u64, b: u64) -> bool
    requires width { IsWidth width }
    requires left { a < 2 ^ width }
    requires right { b < 2 ^ width }
    ensures { result ≡ comparison width p a b }
{
    match p {
        Pred::Eq => a == b,
        Pred::Ne => a != b,
        Pred::Ugt => a > b,
        Pred::Uge => a >= b,
        Pred::Ult => a < b,
        Pred::Ule => a <= b,
        Pred::Sgt => with_sign(width, a) > with_sign(width, b),
        Pred::Sge => with_sign(width, a) >= with_sign(width, b),
        Pred::Slt => with_sign(width, a) < with_sign(width, b),
        Pred::Sle => with_sign(width, a) <= with_sign(width, b),
    }
}
