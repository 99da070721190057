//! The text of a summary.
ghost use Rattle.std.specs.Prelude.{◌≡◌, ◌++◌, ◌^◌, ◌<◌, if◌then◌else◌, ℕ, length, slice_index, IfOk, OnOk};
ghost use Rattle.std.specs.List.{flat_map};
ghost use Rattle.ir_module.specs.WellFormed.{IsWellFormed};
ghost use Rattle.facts.specs.Bodies as bodies;
ghost use Rattle.positions.specs.Numbering.{AreOf};
ghost use Rattle.rule_says.specs.Reading.{facts_in};
ghost use Rattle.manifest.specs.Ready.{IsReady, set_of};
ghost use Rattle.attr_list.specs.Summed as spec;

use crate::count::times;
use attr_ids::{FuncId, Insertion, Insertions, NoMemory, Text, WordList};
use ir_module::Module;
use itoa::Buffer;
use manifest::{Held, is_dead_body};
use positions::{Positions, is_body};
use std::alloc::Global;

fn one_if(test: bool) -> u32
    ensures { result ≡ (if test then 1 else 0) }
{
    if test { 1 } else { 0 }
}

/// How many bodies there are.
fn count_bodies(m: &Module) -> u32
    requires { length m.now.funcs < 2 ^ 31 }
    ensures { result ≡ spec.count_of (bodies.is_body m.now) (length m.now.funcs) }
{
    let mut count = 0;
    for f in 0..m.funcs.len() as u32 {
        count += one_if(is_body(m, f));
    }
    count
}

/// Whether a function is a body that no run comes to.
fn is_dead(held: &Held<'_>, f: u32) -> bool
    requires { IsReady held.now }
    ensures { result ≡ spec.is_dead held.now.m.now (set_of held.now) f }
{
    if is_body(held.m, f) {
        return is_dead_body(held, FuncId(f));
    }
    false
}

/// How many bodies there are that no run comes to.
fn count_dead(held: &Held<'_>) -> u32
    requires { IsReady held.now }
    ensures { result ≡ spec.count_of (spec.is_dead held.now.m.now (set_of held.now)) (length held.now.m.now.funcs) }
{
    let mut count = 0;
    for f in 0..held.m.funcs.len() as u32 {
        count += one_if(is_dead(held, f));
    }
    count
}

/// Puts the first line behind the text.
fn put_head(text: &mut Vec<u8>, held: &Held<'_>) -> Result<(), NoMemory>
    requires { IsReady held.now }
    ensures { OnOk result (text.new.items ≡ text.old.items ++ spec.head_line held.now.m.now (set_of held.now)) }
{
    let mut buffer = Buffer::new();
    text.extend_from_slice(b"functions ")?;
    text.extend_from_slice(buffer.format(count_bodies(held.m)).as_bytes())?;
    text.extend_from_slice(b" dead ")?;
    text.extend_from_slice(buffer.format(count_dead(held)).as_bytes())?;
    text.extend_from_slice(b"\n")?;
    Ok(())
}

/// Puts the line of an attribute behind the text.
fn put_name(text: &mut Vec<u8>, insertions: &[Insertion], name: &[u8]) -> Result<(), NoMemory>
    ensures { OnOk result (text.new.items ≡ text.old.items ++ spec.name_line insertions.now name.now) }
{
    let mut buffer = Buffer::new();
    text.extend_from_slice(name)?;
    text.extend_from_slice(b" ")?;
    text.extend_from_slice(buffer.format(times(name, insertions)).as_bytes())?;
    text.extend_from_slice(b"\n")?;
    Ok(())
}

/// Puts the lines of all attributes behind the text.
fn put_names(text: &mut Vec<u8>, insertions: &[Insertion]) -> Result<(), NoMemory>
    ensures { OnOk result (text.new.items ≡ text.old.items ++ flat_map (spec.name_line insertions.now) spec.names) }
{
    put_name(text, insertions, b"nofree")?;
    put_name(text, insertions, b"norecurse")?;
    put_name(text, insertions, b"noreturn")?;
    put_name(text, insertions, b"nounwind")?;
    put_name(text, insertions, b"memory")?;
    put_name(text, insertions, b"align")?;
    put_name(text, insertions, b"dereferenceable")?;
    put_name(text, insertions, b"nocapture")?;
    put_name(text, insertions, b"nonnull")?;
    put_name(text, insertions, b"readnone")?;
    put_name(text, insertions, b"readonly")?;
    put_name(text, insertions, b"writeonly")?;
    put_name(text, insertions, b"returned")?;
    Ok(())
}

/// How many bodies a verified module has, how many of them no run comes to by these words of facts, and how often each
/// attribute is added by these insertions, a line for each attribute. `p` are the positions of the module, and `words`
/// has a word for each. The only error is that no memory is left.
pub fn summary(
    alloc: Global,
    m: &Module,
    p: &Positions,
    words: &WordList,
    ins: &Insertions,
) -> Result<Text, NoMemory>
    requires formed { IsWellFormed m.now }
    requires few_params { (f : ℕ) → bodies.param_count m.now f < 256 }
    requires positions { AreOf m.now p.now }
    requires words { length words.now ≡ length p.now.list }
    ensures { IfOk result (λ text. text ≡ spec.summary_text m.now (facts_in p.now (slice_index words.now)) ins.now) }
{
    let held = Held {
        m,
        positions: p,
        words: words.as_slice(),
    };
    let mut text = Vec::new(alloc);
    put_head(&mut text, &held)?;
    put_names(&mut text, ins.as_slice())?;
    Ok(Text::from_vec(text))
}
