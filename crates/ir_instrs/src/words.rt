//! The words of operations.
ghost use Rattle.std.specs.Prelude.{◌≡◌};
ghost use Rattle.ir_ops.specs.declared.binary.BinOp.TheVariants.{SRem};
ghost use Rattle.ir_ops.specs.declared.conversion.CastOp.TheVariants.{PtrToInt};
ghost use Rattle.ir_ops.specs.declared.predicate.Pred.TheVariants.{Sle};
ghost use Rattle.ir_instrs.specs.Words as spec;

use ir_ops::{BinOp, CastOp, Pred};

/// The operations on two integers (LangRef, "Binary Operations", "Bitwise Binary Operations").
pub const BIN_WORDS: &[(&[u8], BinOp)] = &[
    (b"add", BinOp::Add),
    (b"sub", BinOp::Sub),
    (b"mul", BinOp::Mul),
    (b"and", BinOp::And),
    (b"or", BinOp::Or),
    (b"xor", BinOp::Xor),
    (b"shl", BinOp::Shl),
    (b"lshr", BinOp::LShr),
    (b"ashr", BinOp::AShr),
    (b"udiv", BinOp::UDiv),
    (b"urem", BinOp::URem),
    (b"sdiv", BinOp::SDiv),
];

/// The predicates of comparisons (LangRef, "'icmp' Instruction").
pub const PRED_WORDS: &[(&[u8], Pred)] = &[
    (b"eq", Pred::Eq),
    (b"ne", Pred::Ne),
    (b"ugt", Pred::Ugt),
    (b"uge", Pred::Uge),
    (b"ult", Pred::Ult),
    (b"ule", Pred::Ule),
    (b"sgt", Pred::Sgt),
    (b"sge", Pred::Sge),
    (b"slt", Pred::Slt),
];

/// The casts (LangRef, "Conversion Operations").
pub const CAST_WORDS: &[(&[u8], CastOp)] = &[
    (b"trunc", CastOp::Trunc),
    (b"zext", CastOp::ZExt),
    (b"sext", CastOp::SExt),
];

/// What the rows have for a word.
fn bin_found(rows: &[(&[u8], BinOp)], word: &[u8]) -> BinOp
    ensures { result ≡ spec.found SRem (spec.entries rows.now) word.now }
{
    let mut rest = rows;
    while let [entry, tail @ ..] = rest {
        if entry.0 == word {
            return entry.1;
        }
        rest = tail;
    }
    BinOp::SRem
}

/// The operation of a word. The grammar has one word besides those of the table, `srem`.
pub(crate) fn bin_op(word: &[u8]) -> BinOp
    ensures { result ≡ spec.bin_op word.now }
{
    bin_found(BIN_WORDS, word)
}

/// What the rows have for a word.
fn pred_found(rows: &[(&[u8], Pred)], word: &[u8]) -> Pred
    ensures { result ≡ spec.found Sle (spec.entries rows.now) word.now }
{
    let mut rest = rows;
    while let [entry, tail @ ..] = rest {
        if entry.0 == word {
            return entry.1;
        }
        rest = tail;
    }
    Pred::Sle
}

/// The predicate of a word. The grammar has one word besides those of the table, `sle`.
pub(crate) fn pred(word: &[u8]) -> Pred
    ensures { result ≡ spec.pred word.now }
{
    pred_found(PRED_WORDS, word)
}

/// What the rows have for a word.
fn cast_found(rows: &[(&[u8], CastOp)], word: &[u8]) -> CastOp
    ensures { result ≡ spec.found PtrToInt (spec.entries rows.now) word.now }
{
    let mut rest = rows;
    while let [entry, tail @ ..] = rest {
        if entry.0 == word {
            return entry.1;
        }
        rest = tail;
    }
    CastOp::PtrToInt
}

/// The cast of a word. The grammar has one word besides those of the table, `ptrtoint`.
pub(crate) fn cast_op(word: &[u8]) -> CastOp
    ensures { result ≡ spec.cast_op word.now }
{
    cast_found(CAST_WORDS, word)
}
