//! Entries of a certificate, line by line.
ghost use Rattle.std.specs.Prelude.{◌≡◌, ◌++◌, ℕ, List, codes, decimal, slice_range, OnOk};
ghost use Rattle.why_text.specs.Lines as spec;

use attr_ids::{FuncId, NoMemory, Span};
use facts::Pos;
use ir_module::Module;
use itoa::Buffer;

/// A text and its module, of which names are printed.
#[derive(Clone, Copy)]
pub(crate) struct Names<'a> {
    pub(crate) text: &'a [u8],
    pub(crate) m: &'a Module,
}

/// The bytes of a span, as far as the text has them.
fn cut(text: &[u8], span: Span) -> &[u8]
    ensures { result.now ≡ slice_range text.now span.from span.to }
{
    let from = span.from as usize;
    let to = (span.to as usize).min(text.len());
    if from < to {
        &text[from..to]
    } else {
        &text[..0]
    }
}

/// The token of a function's name.
fn name<'a>(names: &Names<'a>, f: FuncId) -> &'a [u8]
    ensures { result.now ≡ spec.name_of names.now.text.now names.now.m.now f }
{
    match names.m.funcs.get(f.0 as usize) {
        Some(func) => cut(names.text, func.token),
        None => &names.text[..0],
    }
}

/// Puts these bytes behind the text, and a number behind them.
fn put_number(text: &mut Vec<u8>, before: &[u8], n: u64) -> Result<(), NoMemory>
    ensures { OnOk result (text.new.items ≡ text.old.items ++ (before.now ++ decimal n)) }
{
    let mut buffer = Buffer::new();
    text.extend_from_slice(before)?;
    text.extend_from_slice(buffer.format(n).as_bytes())?;
    Ok(())
}

/// Puts these bytes behind the text, and the name of a function behind them.
fn put_name(text: &mut Vec<u8>, names: &Names<'_>, before: &[u8], f: FuncId) -> Result<(), NoMemory>
    ensures { OnOk result (text.new.items ≡ text.old.items ++ (before.now ++ spec.name_of names.now.text.now names.now.m.now f)) }
{
    text.extend_from_slice(before)?;
    text.extend_from_slice(name(names, f))?;
    Ok(())
}

/// Puts a position behind the text.
fn put_position(text: &mut Vec<u8>, names: &Names<'_>, p: Pos) -> Result<(), NoMemory>
    ensures { OnOk result (text.new.items ≡ text.old.items ++ spec.position names.now.text.now names.now.m.now p) }
{
    match p {
        Pos::Segment(k) => put_number(text, b"seg ", u64::from(k.0)),
        Pos::Function(f) => put_name(text, names, b"fun ", f),
        Pos::Value(v) => put_number(text, b"val ", u64::from(v.0)),
        Pos::Entry(f, at) => {
            put_name(text, names, b"ent ", f)?;
            put_number(text, b" ", u64::from(at))
        }
        Pos::Return(f) => put_name(text, names, b"ret ", f),
        Pos::Reach(row, k) => {
            put_number(text, b"reach ", u64::from(row))?;
            put_number(text, b" ", u64::from(k))
        }
        Pos::Effect(k) => put_number(text, b"eff ", u64::from(k.0)),
    }
}

/// Puts the line of an entry with this number behind the text: these bits are taken from this position.
pub(crate) fn put_line(
    text: &mut Vec<u8>,
    names: &Names<'_>,
    number: u64,
    p: Pos,
    bits: u64,
) -> Result<(), NoMemory>
    ensures { OnOk result (text.new.items ≡ text.old.items ++ (decimal number ++ codes " " ++ spec.position names.now.text.now names.now.m.now p
        ++ codes " " ++ decimal bits ++ codes "\n")) }
{
    put_number(text, b"", number)?;
    text.extend_from_slice(b" ")?;
    put_position(text, names, p)?;
    put_number(text, b" ", bits)?;
    text.extend_from_slice(b"\n")?;
    Ok(())
}

/// Puts the last line behind the text.
pub(crate) fn put_last(text: &mut Vec<u8>, count: u64) -> Result<(), NoMemory>
    ensures { OnOk result (text.new.items ≡ text.old.items ++ spec.last_line count) }
{
    put_number(text, b"checked ", count)?;
    text.extend_from_slice(b"\n")?;
    Ok(())
}
