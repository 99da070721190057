//! `memory(..)`, by the facts that are held of a body.
ghost use Rattle.std.specs.Prelude.{◌≡◌, ◌+◌, ◌<◌, ◌&&◌, not, if◌then◌else◌, OnOk};
ghost use Rattle.lattice_words.specs.Words.{has_bit};
ghost use Rattle.facts.specs.Kinds.{NoAccess, Write, Argmem, function_bit};
ghost use Rattle.manifest.specs.Attrs as spec;
ghost use Rattle.manifest.specs.Spelling.{spelled_behind};

use crate::held::has;
use crate::spelling::{both, is_added, put_memory};
use attr_ids::NoMemory;
use ir_module::MemoryAttr;
use lattice_words::function::{
    NO_READ_OF_ARGMEM, NO_READ_OF_DEFAULT, NO_READ_OF_INACCESSIBLEMEM, NO_WRITE_OF_ARGMEM,
    NO_WRITE_OF_DEFAULT, NO_WRITE_OF_INACCESSIBLEMEM,
};

fn one_if(test: bool) -> u8
    ensures { result ≡ (if test then 1 else 0) }
{
    if test { 1 } else { 0 }
}

/// What accesses of a location may happen, by the bits that exclude them.
fn accesses(word: u64, no_read: u32, no_write: u32) -> u8
    requires read { no_read < 64 }
    requires write { no_write < 64 }
    ensures { result ≡ (if has_bit word no_read then 0 else 1) + (if has_bit word no_write then 0 else 2) }
{
    one_if(!has(word, no_read)) + 2 * one_if(!has(word, no_write))
}

/// What accesses may happen.
fn memory_of(word: u64) -> MemoryAttr
    ensures { result ≡ spec.memory_of (λ kind. has_bit word (function_bit kind)) }
{
    MemoryAttr {
        other: accesses(word, NO_READ_OF_DEFAULT, NO_WRITE_OF_DEFAULT),
        argmem: accesses(word, NO_READ_OF_ARGMEM, NO_WRITE_OF_ARGMEM),
        inaccessible: accesses(
            word,
            NO_READ_OF_INACCESSIBLEMEM,
            NO_WRITE_OF_INACCESSIBLEMEM,
        ),
    }
}

/// Whether all accesses may happen.
fn permits_all(memory: &MemoryAttr) -> bool
    ensures { result ≡ spec.permits_all memory.now }
{
    memory.other == 3 && memory.argmem == 3 && memory.inaccessible == 3
}

/// Whether it says something that may be said beside what is written.
fn is_deduced(memory: &MemoryAttr, writable: bool, word: u64) -> bool
    ensures { result ≡ not (spec.permits_all memory.now) && not (writable && has_bit word (function_bit (NoAccess Write Argmem))) }
{
    !permits_all(memory) && !both(writable, has(word, NO_WRITE_OF_ARGMEM))
}

/// Adds `memory(..)`, where it says something. `writable` says whether an argument is written so.
pub(crate) fn put_memory_of(
    text: &mut Vec<u8>,
    written: bool,
    writable: bool,
    word: u64,
) -> Result<(), NoMemory>
    ensures { OnOk result (text.new.items ≡ spelled_behind text.old.items (spec.memory_attrs written writable (λ kind. has_bit word (function_bit kind)))) }
{
    let memory = memory_of(word);
    if is_added(written, is_deduced(&memory, writable, word)) {
        put_memory(text, &memory)?;
    }
    Ok(())
}
