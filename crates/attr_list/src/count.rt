//! How often a name stands in the words of insertions.
ghost use Rattle.std.specs.Prelude.{◌≡◌, ◌≤◌, ◌<◌, if◌then◌else◌, length};
ghost use Rattle.attr_list.specs.Summed as spec;

use attr_ids::Insertion;

/// Whether a name ends before this text.
fn ends_name(text: &[u8]) -> bool
    ensures { result ≡ spec.ends_name text.now }
{
    match text.first() {
        Some(byte) => *byte == b' ' || *byte == b'(',
        None => true,
    }
}

/// Whether the text begins with the name, whole.
fn begins_with(name: &[u8], text: &[u8]) -> bool
    ensures { result ≡ spec.begins_with name.now text.now }
{
    text.starts_with(name) && ends_name(&text[name.len()..])
}

/// Whether a word begins at this place.
fn begins_word(text: &[u8], k: usize) -> bool
    requires { k < length text.now }
    ensures { result ≡ spec.begins_word text.now k }
{
    k == 0 || text[k - 1] == b' '
}

/// 1 where the name stands at this place.
fn one_at(name: &[u8], text: &[u8], k: usize) -> u64
    requires { k < length text.now }
    ensures { result ≡ (if spec.stands_at name.now text.now k then 1 else 0) }
{
    if begins_word(text, k) && begins_with(name, &text[k..]) {
        return 1;
    }
    0
}

/// How often the name stands in the words of an insertion.
fn times_in(name: &[u8], insertion: &Insertion) -> u64
    ensures { result ≡ spec.times_in name.now insertion.now }
{
    let words = insertion.words.as_slice();
    let mut count = 0;
    for k in 0..words.len() {
        count += one_at(name, words, k);
    }
    count
}

/// How often the name stands in the words of these insertions.
pub(crate) fn times(name: &[u8], insertions: &[Insertion]) -> u128
    ensures { result ≡ spec.times insertions.now name.now }
{
    let mut count = 0;
    for insertion in insertions {
        count += u128::from(times_in(name, insertion));
    }
    count
}
