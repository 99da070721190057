//! The mask of a position: the bits of its kind that are built.
ghost use Rattle.std.specs.Prelude.{◌≡◌, ◌^◌, ◌<◌, if◌then◌else◌, map, slice_get, IfOk};
ghost use Rattle.facts.specs.Masks as masks;
ghost use Rattle.facts.specs.Bodies as bodies;
ghost use Rattle.facts.specs.Bodies.{body_count};

use crate::module::{is_body, is_pointer, is_pointer_param, is_void};
use attr_ids::NoMemory;
use facts::Pos;
use ir_module::Module;
use lattice_words::function::{NO_WRITE_OF_INACCESSIBLEMEM, NOFREE};
use lattice_words::reach::BODIES;
use lattice_words::segment::DEAD;
use lattice_words::value::{BYTES_1024, NONNULL, NOT_UNKNOWN, SAME_AS_PARAMETERS};
use lattice_words::word::FACT_BITS;
use std::alloc::Global;

/// Whether this kind of bit is built.
pub fn is_built(p: Pos, bit: u32) -> bool
    ensures { result ≡ masks.is_built p bit }
{
    match p {
        Pos::Segment(_) => true,
        Pos::Function(_) => bit <= NOFREE,
        Pos::Reach(_, _) => true,
        Pos::Effect(_) => bit <= NOFREE,
        Pos::Value(_) => false,
        Pos::Entry(_, _) => false,
        Pos::Return(_) => false,
    }
}

fn is_same_bit(params: usize, bit: u32) -> bool
    ensures { result ≡ masks.is_same_bit params bit }
{
    bit < SAME_AS_PARAMETERS && (bit as usize) < params
}

fn is_bit_up_to(last: u32, pointer: bool, params: usize, bit: u32) -> bool
    ensures { result ≡ masks.is_bit_up_to last pointer params bit }
{
    if pointer {
        return bit <= last && (is_same_bit(params, bit) || NONNULL <= bit);
    }
    is_same_bit(params, bit)
}

fn param_count(m: &Module, f: u32) -> usize
    ensures { result ≡ bodies.param_count m.now f }
{
    match m.funcs.get(f as usize) {
        Some(func) => func.params.len(),
        None => 0,
    }
}

fn is_value_bit(m: &Module, v: u32, bit: u32) -> bool
    ensures { result ≡ masks.is_value_bit m.now bit (slice_get m.now.values v) }
{
    match m.values.get(v as usize) {
        Some(info) => {
            is_body(m, info.func.0)
                && is_bit_up_to(
                    FACT_BITS - 1,
                    is_pointer(m, info.ty),
                    param_count(m, info.func.0),
                    bit,
                )
        }
        None => false,
    }
}

fn is_return_bit(m: &Module, f: u32, bit: u32) -> bool
    ensures { result ≡ masks.is_return_bit m.now f bit (slice_get m.now.funcs f) }
{
    match m.funcs.get(f as usize) {
        Some(func) => {
            is_body(m, f)
                && !is_void(m, func.ret)
                && is_bit_up_to(NOT_UNKNOWN, is_pointer(m, func.ret), func.params.len(), bit)
        }
        None => false,
    }
}

/// Whether the position is one of the module's, with so many bodies, and the bit one of its kind.
fn has_bit_of(m: &Module, count: u32, p: Pos, bit: u32) -> bool
    requires { count ≡ body_count m.now }
    ensures { result ≡ masks.has_bit_of m.now p bit }
{
    match p {
        Pos::Segment(k) => (k.0 as usize) < m.segs.len() && bit == DEAD,
        Pos::Function(f) => is_body(m, f.0) && bit <= NO_WRITE_OF_INACCESSIBLEMEM,
        Pos::Value(v) => is_value_bit(m, v.0, bit),
        Pos::Entry(f, at) => {
            is_body(m, f.0)
                && is_pointer_param(m, f.0, at as u32)
                && NONNULL <= bit
                && bit <= BYTES_1024
        }
        Pos::Return(f) => is_return_bit(m, f.0, bit),
        Pos::Reach(row, k) => {
            row <= count && bit < BODIES && k as u64 * BODIES as u64 + (bit as u64) < count as u64
        }
        Pos::Effect(k) => (k.0 as usize) < m.segs.len() && bit <= NO_WRITE_OF_INACCESSIBLEMEM,
    }
}

/// Whether the bit stands in the position's mask.
fn is_bit(m: &Module, count: u32, p: Pos, bit: u32) -> bool
    requires { count ≡ body_count m.now }
    ensures { result ≡ masks.is_bit m.now p bit }
{
    is_built(p, bit) && has_bit_of(m, count, p, bit)
}

/// The value of a bit, if it is set.
fn bit_value(set: bool, bit: u32) -> u64
    requires { bit < FACT_BITS }
    ensures { result ≡ (if set then 2 ^ bit else 0) }
{
    if set { 1 << bit } else { 0 }
}

/// The mask of a position of a module with so many bodies.
fn mask(m: &Module, count: u32, p: Pos) -> u64
    requires { count ≡ body_count m.now }
    ensures { result ≡ masks.mask_of m.now p }
{
    let mut word = 0;
    for bit in 0..FACT_BITS {
        word += bit_value(is_bit(m, count, p, bit), bit);
    }
    word
}

/// The masks of these positions.
pub(crate) fn masks_of(
    alloc: Global,
    m: &Module,
    count: u32,
    list: &[Pos],
) -> Result<Vec<u64>, NoMemory>
    requires { count ≡ body_count m.now }
    ensures { IfOk result (λ found. found.items ≡ map (masks.mask_of m.now) list.now) }
{
    let mut found = Vec::with_capacity(alloc, list.len())?;
    for i in 0..list.len() {
        found.push(mask(m, count, list[i]))?;
    }
    Ok(found)
}
