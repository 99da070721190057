//! The offsets of what is put into a text.
ghost use Rattle.std.specs.Prelude.{◌≤◌, ◌↔◌, All, IsTrue, length};
ghost use Rattle.weave.specs.Woven.{OffsetsRise};

use attr_ids::Insertion;

/// Whether the offsets rise and stay within a text of so many bytes.
pub(crate) fn stand_within(insertions: &[Insertion], size: usize) -> bool
    ensures rising { IsTrue result → OffsetsRise insertions.now }
    ensures within { IsTrue result → All (λ insertion. insertion.at ≤ size) insertions.now }
{
    let mut last = 0;
    for insertion in insertions {
        if insertion.at < last || insertion.at as usize > size {
            return false;
        }
        last = insertion.at;
    }
    true
}
