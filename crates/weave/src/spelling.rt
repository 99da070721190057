ghost use Rattle.std.specs.Prelude.{◌≡◌, ◌++◌, length, min, slice_get, OnOk};
ghost use Rattle.weave.specs.Woven.{byte_before, joins_a_word, joins_from_before, parting, parting_from, spelled};

use attr_ids::{Insertion, NoMemory, Place};

/// The bytes of a text on either side of an offset.
#[derive(Clone, Copy)]
pub struct Gap {
    pub before: Option<u8>,
    pub next: Option<u8>,
}

/// A letter, a digit or one of `_ . $ - :`, which would be read as part of the word before it.
fn would_join(byte: u8) -> bool
    ensures { result ≡ joins_a_word byte }
{
    byte.is_ascii_alphanumeric() || matches!(byte, b'_' | b'.' | b'$' | b'-' | b':')
}

/// A letter, a digit or one of `_ . $ - "`, which the word behind it would be read as part of.
fn would_join_from_before(byte: u8) -> bool
    ensures { result ≡ joins_from_before byte }
{
    byte.is_ascii_alphanumeric() || matches!(byte, b'_' | b'.' | b'$' | b'-' | b'"')
}

/// One blank where the next byte would join the words before it, and nothing elsewhere.
fn parting_before(next: Option<u8>) -> &'static [u8]
    ensures { result.now ≡ parting next }
{
    match next {
        Some(byte) if would_join(byte) => b" ",
        _ => b"",
    }
}

/// One blank where the byte before would join the words behind it, and nothing elsewhere.
fn parting_behind(before: Option<u8>) -> &'static [u8]
    ensures { result.now ≡ parting_from before }
{
    match before {
        Some(byte) if would_join_from_before(byte) => b" ",
        _ => b"",
    }
}

/// The byte of a text at an offset, none at its end.
fn byte_at(text: &[u8], at: usize) -> Option<u8>
    ensures { result ≡ slice_get text.now at }
{
    text.get(at).copied()
}

/// The byte of a text in front of an offset, none at its start.
fn byte_in_front(text: &[u8], at: usize) -> Option<u8>
    ensures { result ≡ byte_before text.now at }
{
    if at == 0 {
        return None;
    }
    byte_at(text, at - 1)
}

/// The bytes on either side of an offset of a text.
pub fn gap_at(text: &[u8], at: usize) -> Gap
    ensures before { result.before ≡ byte_before text.now at }
    ensures next { result.next ≡ slice_get text.now at }
{
    Gap {
        before: byte_in_front(text, at),
        next: byte_at(text, at),
    }
}

/// How many bytes `spell` puts in, or `usize::MAX` where they are more.
pub fn spelled_len(insertion: &Insertion, gap: Gap) -> usize
    ensures { result ≡ min (length (spelled insertion.now gap.before gap.next)) usize.MAX }
{
    let parting = match insertion.place {
        Place::Return | Place::CallReturn => parting_behind(gap.before).len(),
        Place::Function | Place::Parameter | Place::Call | Place::Argument => {
            parting_before(gap.next).len()
        }
    };
    insertion.words.len().saturating_add(1 + parting)
}

/// Puts the words of an insertion, with their blanks, behind what is woven so far. `gap` has the
/// bytes of the text between which they stand.
pub fn spell(woven: &mut Vec<u8>, insertion: &Insertion, gap: Gap) -> Result<(), NoMemory>
    ensures { OnOk result (woven.new.items ≡ woven.old.items ++ spelled insertion.now gap.before gap.next) }
{
    let words = insertion.words.as_slice();
    match insertion.place {
        Place::Return | Place::CallReturn => {
            woven.extend_from_slice(parting_behind(gap.before))?;
            woven.extend_from_slice(words)?;
            woven.push(b' ')?;
        }
        Place::Function | Place::Parameter | Place::Call | Place::Argument => {
            woven.push(b' ')?;
            woven.extend_from_slice(words)?;
            woven.extend_from_slice(parting_before(gap.next))?;
        }
    }
    Ok(())
}
