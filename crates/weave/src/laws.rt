ghost use Rattle.std.specs.Prelude.{◌≡◌, ◌+◌, ◌≤◌, ◌↔◌, ℕ, List, [], All, length, sum_by};
ghost use Rattle.attr_ids.specs.declared.insertion.Insertion.{Insertion};
ghost use Rattle.weave.specs.Shuffle.{Piece, IsShuffle, written};
ghost use Rattle.weave.specs.Woven.{OffsetsRise, Woven, spelled_in, standing_at};

/// Law: with no insertion a text is woven as it is.
pub fn no_insertion_changes_nothing()
    ensures { (text : List ℕ) → Woven text [] text }
{}

/// Law: two lists with the same insertions at each offset give the same woven text.
pub fn only_what_stands_at_an_offset_counts()
    ensures { (text out : List ℕ) (insertions others : List Insertion) → ((offset : ℕ) → standing_at offset insertions ≡ standing_at offset others) →
        Woven text insertions out → Woven text others out }
{}

/// Law: where the offsets rise and none is past the end, the woven text is the one text that a
/// shuffle of the bytes and the insertions spells, each insertion after as many bytes as its offset
/// says. So every byte of the text is kept, in its order, and each insertion stands in it once.
pub fn woven_is_a_shuffle()
    ensures { (text out : List ℕ) (insertions : List Insertion) → OffsetsRise insertions → All (λ insertion. insertion.at ≤ length text) insertions →
        (Woven text insertions out ↔ ((pieces : List Piece) × IsShuffle text insertions pieces × (out ≡ written text pieces))) }
{}

/// Law: where the offsets rise and none is past the end, the woven text is as long as the text and
/// all that its insertions spell.
pub fn woven_is_as_long_as_its_parts()
    ensures { (text out : List ℕ) (insertions : List Insertion) → OffsetsRise insertions → All (λ insertion. insertion.at ≤ length text) insertions →
        Woven text insertions out → length out ≡ length text + sum_by (λ insertion. length (spelled_in text insertion)) insertions }
{}
