ghost use Rattle.std.specs.Prelude.{◌≡◌, ◌^◌, ◌<◌};
ghost use Rattle.ir_ops.specs.Residue.{IsWidth};
ghost use Rattle.ir_ops.specs.BinOp.{is_undefined, outcome};

use crate::bits::{all_ones, bits_of, low_bits, sign_bit, with_sign};

/// A binary operation on integers.
#[derive(Clone, Copy, PartialEq, Eq)]
pub enum BinOp {
    Add,
    Sub,
    Mul,
    And,
    Or,
    Xor,
    Shl,
    LShr,
    AShr,
    UDiv,
    URem,
    SDiv,
    SRem,
}

/// What an operation answers: a number, poison, or that the program's behaviour is undefined.
#[derive(Clone, Copy, PartialEq, Eq)]
pub enum OpOut {
    Value(u64),
    Poison,
    Undefined,
}

/// Does an operation on two numbers of `W` bits.
pub fn apply<const W: u32>(op: BinOp, a: u64, b: u64) -> OpOut
    requires width { IsWidth W }
    requires left { a < 2 ^ W }
    requires right { b < 2 ^ W }
    ensures { result ≡ outcome W op a b }
{
    apply_at(W, op, a, b)
}

/// Does an operation on two numbers of `width` bits, a width that is known only at run time.
pub fn apply_at(width: u32, op: BinOp, a: u64, b: u64) -> OpOut
    requires width { IsWidth width }
    requires left { a < 2 ^ width }
    requires right { b < 2 ^ width }
    ensures { result ≡ outcome width op a b }
{
    match op {
        BinOp::Add => OpOut::Value(low_bits(width, a.wrapping_add(b))),
        BinOp::Sub => OpOut::Value(low_bits(width, a.wrapping_sub(b))),
        BinOp::Mul => OpOut::Value(low_bits(width, a.wrapping_mul(b))),
        BinOp::And => OpOut::Value(a & b),
        BinOp::Or => OpOut::Value(a | b),
        BinOp::Xor => OpOut::Value(a ^ b),
        BinOp::Shl => shl(width, a, b),
        BinOp::LShr => lshr(width, a, b),
        BinOp::AShr => ashr(width, a, b),
        BinOp::UDiv => udiv(width, a, b),
        BinOp::URem => urem(width, a, b),
        BinOp::SDiv => sdiv(width, a, b),
        BinOp::SRem => srem(width, a, b),
    }
}

fn shl(width: u32, a: u64, b: u64) -> OpOut
    requires width { IsWidth width }
    ensures { result ≡ outcome width BinOp.Shl a b }
{
    if b < u64::from(width) {
        OpOut::Value(low_bits(width, a << b))
    } else {
        OpOut::Poison
    }
}

fn lshr(width: u32, a: u64, b: u64) -> OpOut
    requires width { IsWidth width }
    requires left { a < 2 ^ width }
    ensures { result ≡ outcome width BinOp.LShr a b }
{
    if b < u64::from(width) {
        OpOut::Value(a >> b)
    } else {
        OpOut::Poison
    }
}

fn ashr(width: u32, a: u64, b: u64) -> OpOut
    requires width { IsWidth width }
    requires left { a < 2 ^ width }
    ensures { result ≡ outcome width BinOp.AShr a b }
{
    if b < u64::from(width) {
        OpOut::Value(bits_of(width, with_sign(width, a) >> b))
    } else {
        OpOut::Poison
    }
}

fn udiv(width: u32, a: u64, b: u64) -> OpOut
    requires left { a < 2 ^ width }
    ensures { result ≡ outcome width BinOp.UDiv a b }
{
    if b == 0 {
        OpOut::Undefined
    } else {
        OpOut::Value(a / b)
    }
}

fn urem(width: u32, a: u64, b: u64) -> OpOut
    requires left { a < 2 ^ width }
    ensures { result ≡ outcome width BinOp.URem a b }
{
    if b == 0 {
        OpOut::Undefined
    } else {
        OpOut::Value(a % b)
    }
}

/// Whether a signed division has no result: by 0, or of the least number by -1.
fn has_no_quotient(width: u32, a: u64, b: u64) -> bool
    requires width { IsWidth width }
    requires left { a < 2 ^ width }
    requires right { b < 2 ^ width }
    ensures { result ≡ is_undefined width BinOp.SDiv a b }
{
    b == 0 || (a == sign_bit(width) && b == all_ones(width))
}

fn sdiv(width: u32, a: u64, b: u64) -> OpOut
    requires width { IsWidth width }
    requires left { a < 2 ^ width }
    requires right { b < 2 ^ width }
    ensures { result ≡ outcome width BinOp.SDiv a b }
{
    if has_no_quotient(width, a, b) {
        return OpOut::Undefined;
    }
    let quotient = with_sign(width, a) / with_sign(width, b);
    OpOut::Value(bits_of(width, quotient))
}

fn srem(width: u32, a: u64, b: u64) -> OpOut
    requires width { IsWidth width }
    requires left { a < 2 ^ width }
    requires right { b < 2 ^ width }
    ensures { result ≡ outcome width BinOp.SRem a b }
{
    if has_no_quotient(width, a, b) {
        return OpOut::Undefined;
    }
    let remainder = with_sign(width, a) % with_sign(width, b);
    OpOut::Value(bits_of(width, remainder))
}
