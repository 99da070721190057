//! What a constant getelementptr leaves of what is known of its base.
ghost use Rattle.std.specs.Prelude.{◌≡◌, ◌+◌, ◌<◌, false, IfSome};
ghost use Rattle.lattice_words.specs.Ladders.{lowest_byte_rung};
ghost use Rattle.facts.specs.Known as spec;
ghost use Rattle.facts.specs.Displacements as displacements;
ghost use Rattle.facts.specs.Displacements.{constant_displacement};
ghost use Rattle.ir_ops.specs.Residue.{residue};

use crate::constants::{divides, symbol_has};
use crate::kinds::{Kind, says};
use ir_module::{Module, Symbol};
use lattice_words::{byte_rung, value};

/// The lowest rung of at least so many bytes.
fn lowest_rung(bytes: u64) -> Option<u32>
    ensures is { result ≡ lowest_byte_rung bytes }
    ensures low { IfSome result (λ k. k < 16) }
{
    for k in 0..value::BYTE_RUNGS {
        if byte_rung(k) >= bytes {
            return Some(k);
        }
    }
    None
}

/// The bit of a name.
pub(crate) fn symbol_bit(m: &Module, base: Symbol, bit: u32) -> bool
    ensures { result ≡ spec.symbol_bit m.now base bit }
{
    symbol_has(m, base, says(bit))
}

/// The rung of at least so many bytes is known of a name, if there is such a rung.
fn has_rung(m: &Module, base: Symbol, bytes: u64) -> bool
    ensures { result ≡ spec.has_rung (spec.symbol_bit m.now base) (lowest_byte_rung bytes) }
{
    match lowest_rung(bytes) {
        Some(k) => symbol_bit(m, base, value::BYTES_1 + k),
        None => false,
    }
}

/// The offset modulo 2^64.
fn low_bits(bytes: i64) -> u64
    ensures { result ≡ residue 64 bytes }
{
    bytes.cast_unsigned()
}

/// All of it is told by the offset, and the offset leads forward.
fn is_exact(fixed: u64, wrap: bool, bytes: i64) -> bool
    requires { fixed ≡ residue 64 bytes }
    ensures { result ≡ displacements.is_exact (constant_displacement false wrap bytes) }
{
    fixed < 1 << 63 && (!wrap || bytes >= 0)
}

/// The rung of at least so many bytes behind the offset is known of a name.
fn reaches(m: &Module, base: Symbol, count: u64, fixed: u64) -> bool
    ensures { result ≡ spec.has_rung (spec.symbol_bit m.now base) (lowest_byte_rung (count + fixed)) }
{
    match count.checked_add(fixed) {
        Some(bytes) => has_rung(m, base, bytes),
        None => false,
    }
}

/// The bit of a constant address.
pub(crate) fn offset_has(
    m: &Module,
    base: Symbol,
    bytes: i64,
    inbounds: bool,
    wrap: bool,
    bit: u32,
) -> bool
    ensures { result ≡ spec.moved_has (constant_displacement inbounds wrap bytes) (spec.symbol_bit m.now base) bit }
{
    let fixed = low_bits(bytes);
    match says(bit) {
        Kind::NonNull => inbounds && symbol_bit(m, base, bit),
        Kind::Aligned(n) => divides(n, fixed) && symbol_bit(m, base, bit),
        Kind::Bytes(count) => is_exact(fixed, wrap, bytes) && reaches(m, base, count, fixed),
        Kind::NotTo(_) => symbol_bit(m, base, bit),
        Kind::Other => false,
    }
}
