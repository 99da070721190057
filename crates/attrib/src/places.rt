//! Where an offset stands in a text, in words.
ghost use Rattle.std.specs.Prelude.{◌≡◌, ◌++◌, ◌<◌, ◌^◌, length, slice_range, take, OnOk};
ghost use Rattle.attrib.specs.Lines as spec;

use attr_ids::{NoMemory, Span};
use itoa::Buffer;
use memchr::memchr_iter;

/// What stands before an offset of a text: all of it, where the text ends before.
fn before(text: &[u8], at: u32) -> &[u8]
    ensures { result.now ≡ take at text.now }
{
    let at = at as usize;
    if at < text.len() { &text[..at] } else { text }
}

/// The bytes of a span, as far as the text has them.
pub(crate) fn cut(text: &[u8], span: Span) -> &[u8]
    ensures { result.now ≡ slice_range text.now span.from span.to }
{
    let from = span.from as usize;
    let to = (span.to as usize).min(text.len());
    if from < to {
        &text[from..to]
    } else {
        &text[..0]
    }
}

/// The number of the line in which an offset stands, from 1.
fn line_number(text: &[u8], at: u32) -> u64
    ensures { result ≡ spec.line_number text.now at }
{
    memchr_iter(b'\n', before(text, at)).count() as u64 + 1
}

/// Puts an offset and its line behind the words of a line.
pub(crate) fn put_place(line: &mut Vec<u8>, text: &[u8], at: u32) -> Result<(), NoMemory>
    ensures { OnOk result (line.new.items ≡ line.old.items ++ spec.place_words text.now at) }
{
    let mut buffer = Buffer::new();
    line.extend_from_slice(b" at byte ")?;
    line.extend_from_slice(buffer.format(at).as_bytes())?;
    line.extend_from_slice(b", line ")?;
    line.extend_from_slice(buffer.format(line_number(text, at)).as_bytes())?;
    Ok(())
}
