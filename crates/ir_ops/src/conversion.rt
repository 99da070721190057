ghost use Rattle.std.specs.Prelude.{◌≡◌, ◌^◌, ◌<◌};
ghost use Rattle.ir_ops.specs.Residue.{IsWidth};
ghost use Rattle.ir_ops.specs.CastOp.{CanCast, converted};

use crate::bits::{bits_of, low_bits, with_sign};

/// A conversion to an integer: of one of another width, or of a pointer, which stands in modules and is not computed here.
#[derive(Clone, Copy, PartialEq, Eq)]
pub enum CastOp {
    Trunc,
    ZExt,
    SExt,
    PtrToInt,
}

/// Converts a number of `W` bits to one of `V` bits.
pub fn cast<const W: u32, const V: u32>(op: CastOp, a: u64) -> u64
    requires from { IsWidth W }
    requires to { IsWidth V }
    requires operand { a < 2 ^ W }
    requires direction { CanCast op W V }
    ensures { result ≡ converted W V op a }
{
    cast_at(W, V, op, a)
}

/// Converts a number of `from` bits to one of `to` bits.
pub fn cast_at(from: u32, to: u32, op: CastOp, a: u64) -> u64
    requires from { IsWidth from }
    requires to { IsWidth to }
    requires operand { a < 2 ^ from }
    requires direction { CanCast op from to }
    ensures { result ≡ converted from to op a }
{
    match op {
        CastOp::Trunc => low_bits(to, a),
        CastOp::ZExt => a,
        CastOp::SExt => bits_of(to, with_sign(from, a)),
        CastOp::PtrToInt => unreachable!(),
    }
}
