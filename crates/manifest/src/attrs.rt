//! The attributes of pointers, by the bits that are held.
ghost use Rattle.std.specs.Prelude.{◌≡◌, ◌+◌, ◌<◌, ◌≤◌, ◌||◌, ℕ, OnOk, IfSome};
ghost use Rattle.lattice_words.specs.Words.{has_bit};
ghost use Rattle.lattice_words.specs.Ladders.{align_rungs, byte_rungs};
ghost use Rattle.manifest.specs.Attrs as spec;
ghost use Rattle.manifest.specs.Spelling.{access_of, spelled, spelled_behind};

use crate::held::has;
use crate::spelling::{both, either, part, put_word};
use attr_ids::NoMemory;
use ir_module::ParamAttrs;
use itoa::Buffer;
use lattice_words::value::{
    ALIGN_2, ALIGN_RUNGS, BYTE_RUNGS, BYTES_1, CAPTURED_BY_RETURN_ALONE, NONNULL, NOT_READ_THROUGH,
    NOT_RETURNED, NOT_WRITTEN_THROUGH,
};
use lattice_words::{align_rung, byte_rung};

/// The highest of so many rungs, from the bit `first` on.
fn highest(word: u64, first: u32, count: u32) -> Option<u32>
    requires { first + count ≤ 64 }
    ensures highest { result ≡ spec.highest (λ k. has_bit word (first + k)) count }
    ensures within { IfSome result (λ k. k < count) }
{
    for i in 0..count {
        let k = count - 1 - i;
        if has(word, first + k) {
            return Some(k);
        }
    }
    None
}

/// Adds `align`, by the highest rung.
pub(crate) fn put_align(text: &mut Vec<u8>, written: &ParamAttrs, word: u64) -> Result<(), NoMemory>
    ensures { OnOk result (text.new.items ≡ spelled_behind text.old.items (spec.align_attrs written.now (has_bit word))) }
{
    let Some(k) = highest(word, ALIGN_2, ALIGN_RUNGS) else {
        return Ok(());
    };
    if written.align != 0 {
        return Ok(());
    }
    let mut buffer = Buffer::new();
    part(text)?;
    text.extend_from_slice(b"align ")?;
    text.extend_from_slice(buffer.format(align_rung(k)).as_bytes())?;
    Ok(())
}

/// Adds `dereferenceable`, by the highest rung.
pub(crate) fn put_bytes(text: &mut Vec<u8>, written: &ParamAttrs, word: u64) -> Result<(), NoMemory>
    ensures { OnOk result (text.new.items ≡ spelled_behind text.old.items (spec.bytes_attrs written.now (has_bit word))) }
{
    let Some(k) = highest(word, BYTES_1, BYTE_RUNGS) else {
        return Ok(());
    };
    if written.dereferenceable != 0 {
        return Ok(());
    }
    let mut buffer = Buffer::new();
    part(text)?;
    text.extend_from_slice(b"dereferenceable(")?;
    text.extend_from_slice(buffer.format(byte_rung(k)).as_bytes())?;
    text.extend_from_slice(b")")?;
    Ok(())
}

/// Adds `nonnull`.
pub(crate) fn put_nonnull(
    text: &mut Vec<u8>,
    written: &ParamAttrs,
    word: u64,
) -> Result<(), NoMemory>
    ensures { OnOk result (text.new.items ≡ spelled_behind text.old.items (spec.nonnull_attrs written.now (has_bit word))) }
{
    put_word(text, written.nonnull, has(word, NONNULL), b"nonnull")?;
    Ok(())
}

/// Adds `nocapture`.
pub(crate) fn put_nocapture(
    text: &mut Vec<u8>,
    written: &ParamAttrs,
    word: u64,
) -> Result<(), NoMemory>
    ensures { OnOk result (text.new.items ≡ spelled_behind text.old.items (spec.nocapture_attrs written.now (has_bit word))) }
{
    let is_written = either(written.nocapture, written.captures);
    let is_kept = both(has(word, CAPTURED_BY_RETURN_ALONE), has(word, NOT_RETURNED));
    put_word(text, is_written, is_kept, b"nocapture")?;
    Ok(())
}

/// Whether an attribute of access is written, or one beside which none is added.
pub(crate) fn has_access(written: &ParamAttrs) -> bool
    ensures { result ≡ spec.has_access written.now }
{
    written.readnone || written.readonly || written.writeonly || (written.sret || written.writable)
}

/// The attribute of what is neither read nor written through, or not one of the two.
fn access_word(unread: bool, unwritten: bool) -> &'static [u8]
    ensures { result.now ≡ spelled (access_of unread unwritten) }
{
    if unread && unwritten {
        return b"readnone";
    }
    if unread { b"writeonly" } else { b"readonly" }
}

/// Adds `readnone`, `readonly` or `writeonly`.
pub(crate) fn put_access(text: &mut Vec<u8>, written: bool, word: u64) -> Result<(), NoMemory>
    ensures { OnOk result (text.new.items ≡ spelled_behind text.old.items (spec.access_attrs written (has_bit word))) }
{
    let unread = has(word, NOT_READ_THROUGH);
    let unwritten = has(word, NOT_WRITTEN_THROUGH);
    let is_deduced = either(unread, unwritten);
    put_word(text, written, is_deduced, access_word(unread, unwritten))?;
    Ok(())
}
