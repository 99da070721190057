ghost use Rattle.std.specs.Prelude.{◌≡◌, ◌+◌, ◌≤◌, All, length, min, sum_by, IfOk};
ghost use Rattle.weave.specs.Woven.{spelled_in, OffsetsRise, Woven};

use crate::spelling::{gap_at, spell, spelled_len};
use attr_ids::{Insertion, Insertions, NoMemory, Text};
use std::alloc::Global;

/// The text with the words of each insertion put in at its offset, a count of bytes from the start
/// of the text. The only error is that no memory is left. Memory is taken once, for the result.
pub fn weave(alloc: Global, text: &[u8], ins: &Insertions) -> Result<Text, NoMemory>
    requires rising { OffsetsRise ins.now }
    requires within { All (λ insertion. insertion.at ≤ length text.now) ins.now }
    ensures { IfOk result (Woven text.now ins.now) }
{
    let insertions = ins.as_slice();
    let mut woven = Vec::with_capacity(alloc, woven_len(text, insertions))?;
    let mut copied = 0;
    for insertion in insertions {
        let at = insertion.at as usize;
        woven.extend_from_slice(&text[copied..at])?;
        spell(&mut woven, insertion, gap_at(text, at))?;
        copied = at;
    }
    woven.extend_from_slice(&text[copied..])?;
    Ok(Text::from_vec(woven))
}

/// The length of the woven text, or `usize::MAX` where it is longer.
fn woven_len(text: &[u8], insertions: &[Insertion]) -> usize
    ensures { let added = sum_by (λ insertion. length (spelled_in text.now insertion)) insertions.now in
        result ≡ min (length text.now + added) usize.MAX }
{
    let mut len = text.len();
    for insertion in insertions {
        let gap = gap_at(text, insertion.at as usize);
        len = len.saturating_add(spelled_len(insertion, gap));
    }
    len
}
