//! The text of a list.
ghost use Rattle.std.specs.Prelude.{◌≡◌, ◌++◌, IfOk, OnOk};
ghost use Rattle.attr_list.specs.Listed as spec;

use attr_ids::{Insertion, Insertions, NoMemory, Place, Text};
use itoa::Buffer;
use std::alloc::Global;

fn letter(place: Place) -> &'static [u8]
    ensures { result.now ≡ spec.letter place }
{
    match place {
        Place::Function => b"f",
        Place::Return => b"r",
        Place::Parameter => b"p",
        Place::Call => b"c",
        Place::CallReturn => b"v",
        Place::Argument => b"a",
    }
}

/// Puts the line of an insertion behind the text.
fn put_line(text: &mut Vec<u8>, insertion: &Insertion) -> Result<(), NoMemory>
    ensures { OnOk result (text.new.items ≡ text.old.items ++ spec.line insertion.now) }
{
    let mut buffer = Buffer::new();
    text.extend_from_slice(buffer.format(insertion.at).as_bytes())?;
    text.extend_from_slice(b" ")?;
    text.extend_from_slice(letter(insertion.place))?;
    text.extend_from_slice(b" ")?;
    text.extend_from_slice(insertion.words.as_slice())?;
    text.extend_from_slice(b"\n")?;
    Ok(())
}

/// A line for each insertion, in their order: its offset in bytes, the letter of its place (`f r p c v a` for function,
/// return, parameter, call, return of a call, argument), and its words. The only error is that no memory is left.
pub fn list(alloc: Global, ins: &Insertions) -> Result<Text, NoMemory>
    ensures { IfOk result (λ text. text ≡ spec.list_text ins.now) }
{
    let mut text = Vec::new(alloc);
    for insertion in ins.as_slice() {
        put_line(&mut text, insertion)?;
    }
    Ok(Text::from_vec(text))
}
