//! Terms.
ghost use Rattle.std.specs.Prelude.{◌≡◌, ◌<◌, IfOk};
ghost use Rattle.rule_terms.specs.declared.term.NewTerm.TheOpen.{NewTerm-F as new};
ghost use Rattle.rule_terms.specs.declared.term.NewTerm.TheViews.{roll-NewTerm};
ghost use Rattle.positions.specs.Numbering.{IsListed};
ghost use Rattle.rule_says.specs.Saying.{IsWord, IsUnless};

use attr_ids::{NoMemory, PosId};
use facts::Pos;
use positions::Positions;
use rule_terms::NewTerm;
use sqlite_items::Boxed;
use std::alloc::Global;

/// These bits, whatever the set is.
pub fn bits(bits: u64) -> NewTerm
    ensures { result ≡ roll-NewTerm (new.Const bits) }
{
    NewTerm::Const(bits)
}

// The word of the position with this number.
fn read(number: PosId) -> NewTerm
    ensures { result ≡ roll-NewTerm (new.Word number) }
{
    NewTerm::Word(number)
}

// All bits where the word of the position with this number has the bit.
fn tested(alloc: Global, input: PosId, bit: u32, then: NewTerm) -> Result<NewTerm, NoMemory>
    ensures { IfOk result (λ t. t ≡ roll-NewTerm (new.Unless input bit then)) }
{
    let then = Boxed::new(alloc, then)?;
    Ok(NewTerm::Unless { input, bit, then })
}

/// These bits of a position's word. Where none of them is in its mask the term is `bits(0)`, and names nothing.
pub fn word(ps: &Positions, p: Pos, asked: u64) -> NewTerm
    requires { IsListed ps.now p }
    ensures { IsWord ps.now asked result p }
{
    let number = ps.number(p);
    if ps.mask(number) & asked == 0 {
        bits(0)
    } else {
        read(number)
    }
}

/// The bits of both terms.
pub fn both(alloc: Global, a: NewTerm, b: NewTerm) -> Result<NewTerm, NoMemory>
    ensures { IfOk result (λ t. t ≡ roll-NewTerm (new.And a b)) }
{
    let a = Boxed::new(alloc, a)?;
    Ok(NewTerm::And(a, Boxed::new(alloc, b)?))
}

/// The bits of either term.
pub fn either(alloc: Global, a: NewTerm, b: NewTerm) -> Result<NewTerm, NoMemory>
    ensures { IfOk result (λ t. t ≡ roll-NewTerm (new.Or a b)) }
{
    let a = Boxed::new(alloc, a)?;
    Ok(NewTerm::Or(a, Boxed::new(alloc, b)?))
}

/// All bits where the set has this fact, else those of `then`. Where the bit is not in the position's mask the term
/// is `then`.
pub fn unless(
    alloc: Global,
    ps: &Positions,
    p: Pos,
    bit: u32,
    then: NewTerm,
) -> Result<NewTerm, NoMemory>
    requires listed { IsListed ps.now p }
    requires bit { bit < 64 }
    ensures { IfOk result (λ t. IsUnless ps.now t p bit then) }
{
    let number = ps.number(p);
    if (ps.mask(number) >> bit) & 1 == 0 {
        return Ok(then);
    }
    tested(alloc, number, bit, then)
}

/// The bits `to` where the term gives this one.
pub fn spread(alloc: Global, bit: u32, to: u64, of: NewTerm) -> Result<NewTerm, NoMemory>
    ensures { IfOk result (λ t. t ≡ roll-NewTerm (new.Spread bit to of)) }
{
    let of = Boxed::new(alloc, of)?;
    Ok(NewTerm::Spread { bit, to, of })
}

/// What the term gives, after a constant offset of so many bytes.
pub fn shift(alloc: Global, bytes: u64, of: NewTerm) -> Result<NewTerm, NoMemory>
    ensures { IfOk result (λ t. t ≡ roll-NewTerm (new.Shift bytes of)) }
{
    let of = Boxed::new(alloc, of)?;
    Ok(NewTerm::Shift { bytes, of })
}

/// What the term gives, without the rungs of alignment that a step of so many bytes loses.
pub fn keep_align(alloc: Global, step: u64, of: NewTerm) -> Result<NewTerm, NoMemory>
    ensures { IfOk result (λ t. t ≡ roll-NewTerm (new.KeepAlign step of)) }
{
    let of = Boxed::new(alloc, of)?;
    Ok(NewTerm::KeepAlign { step, of })
}
