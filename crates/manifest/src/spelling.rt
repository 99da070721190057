//! Words behind a text, with one blank between two of them.
ghost use Rattle.std.specs.Prelude.{◌≡◌, ◌++◌, ◌&&◌, ◌||◌, not, OnOk};
ghost use Rattle.manifest.specs.Attrs as attrs;
ghost use Rattle.manifest.specs.Attrs.{Attr, added};
ghost use Rattle.manifest.specs.Spelling as spec;
ghost use Rattle.manifest.specs.Spelling.{parted, spelled, spelled_behind};

use attr_ids::NoMemory;
use ir_module::MemoryAttr;

/// Parts what comes from the words that stand there.
pub(crate) fn part(text: &mut Vec<u8>) -> Result<(), NoMemory>
    ensures { OnOk result (text.new.items ≡ parted text.old.items) }
{
    if !text.is_empty() {
        text.push(b' ')?;
    }
    Ok(())
}

/// Whether an attribute is added: it is deduced, and none of its kind is written.
pub(crate) fn is_added(written: bool, deduced: bool) -> bool
    ensures { result ≡ deduced && not written }
{
    deduced && !written
}

/// Adds a word where it is deduced and none of its kind is written.
pub(crate) fn put_word(
    text: &mut Vec<u8>,
    written: bool,
    deduced: bool,
    word: &[u8],
) -> Result<(), NoMemory>
    ensures { (attr : Attr) → spelled attr ≡ word.now → OnOk result (text.new.items ≡ spelled_behind text.old.items (added written deduced attr)) }
{
    if is_added(written, deduced) {
        part(text)?;
        text.extend_from_slice(word)?;
    }
    Ok(())
}

/// The accesses of a location: bit 0 reads, bit 1 writes.
fn access_word(access: u8) -> &'static [u8]
    ensures { result.now ≡ spec.access_word access }
{
    match access {
        0 => b"none",
        1 => b"read",
        2 => b"write",
        _ => b"readwrite",
    }
}

/// What stands between two items.
fn comma(behind: bool) -> &'static [u8]
    ensures { result.now ≡ spec.comma behind }
{
    if behind { b", " } else { b"" }
}

/// An item of `memory(..)`, where it stands.
fn put_item(
    text: &mut Vec<u8>,
    stands: bool,
    behind: bool,
    label: &[u8],
    access: u8,
) -> Result<(), NoMemory>
    ensures { OnOk result (text.new.items ≡ text.old.items ++ spec.item stands (spec.comma behind ++ label.now ++ spec.access_word access)) }
{
    if stands {
        text.extend_from_slice(comma(behind))?;
        text.extend_from_slice(label)?;
        text.extend_from_slice(access_word(access))?;
    }
    Ok(())
}

/// Whether one of the two holds.
pub(crate) fn either(a: bool, b: bool) -> bool
    ensures { result ≡ a || b }
{
    a || b
}

/// Whether both hold.
pub(crate) fn both(a: bool, b: bool) -> bool
    ensures { result ≡ a && b }
{
    a && b
}

/// Whether the default stands.
fn has_default(memory: &MemoryAttr) -> bool
    ensures { result ≡ spec.has_default memory.now }
{
    memory.other != 0 || (memory.other == memory.argmem && memory.other == memory.inaccessible)
}

/// Whether the accesses through arguments stand.
fn has_argmem(memory: &MemoryAttr) -> bool
    ensures { result ≡ spec.has_argmem memory.now }
{
    memory.argmem != memory.other
}

/// Whether the accesses of inaccessible memory stand.
fn has_inaccessible(memory: &MemoryAttr) -> bool
    ensures { result ≡ spec.has_inaccessible memory.now }
{
    memory.inaccessible != memory.other
}

/// The items of `memory(..)`.
fn put_items(text: &mut Vec<u8>, memory: &MemoryAttr) -> Result<(), NoMemory>
    ensures { OnOk result (text.new.items ≡ text.old.items ++ spec.memory_items memory.now) }
{
    let default = has_default(memory);
    let argmem = has_argmem(memory);
    let behind = either(default, argmem);
    put_item(text, default, false, b"", memory.other)?;
    put_item(text, argmem, default, b"argmem: ", memory.argmem)?;
    put_item(
        text,
        has_inaccessible(memory),
        behind,
        b"inaccessiblemem: ",
        memory.inaccessible,
    )?;
    Ok(())
}

/// Adds `memory(..)`.
pub(crate) fn put_memory(text: &mut Vec<u8>, memory: &MemoryAttr) -> Result<(), NoMemory>
    ensures { OnOk result (text.new.items ≡ parted text.old.items ++ spelled (attrs.Memory memory.now)) }
{
    part(text)?;
    text.extend_from_slice(b"memory(")?;
    put_items(text, memory)?;
    text.extend_from_slice(b")")?;
    Ok(())
}
