//! Data layouts (LangRef, "Data Layout").
ghost use Rattle.std.specs.Prelude.{◌≡◌, ◌&&◌, ◌||◌, slice_index};
ghost use Rattle.ir_literals.specs.Layouts as spec;

use bstr::ByteSlice;

/// The byte at a place, and 0 past the end.
fn byte(text: &[u8], at: usize) -> u8
    ensures { result ≡ slice_index text.now at }
{
    if at < text.len() { text[at] } else { 0 }
}

/// Whether a component ends here, or a colon stands here.
fn is_cut(rest: &[u8]) -> bool
    ensures { result ≡ spec.is_cut rest.now }
{
    rest.is_empty() || rest[0] == b':'
}

/// Whether a component is these bytes, to its end or a colon.
fn says(part: &[u8], word: &[u8]) -> bool
    ensures { result ≡ spec.says part.now word.now }
{
    let len = word.len();
    part.len() >= len && &part[..len] == word && is_cut(&part[len..])
}

/// Whether these bytes are `:64`, any number of times.
fn are_sixty_fours(text: &[u8]) -> bool
    ensures { result ≡ spec.are_sixty_fours text.now }
{
    let mut rest = text;
    while let [a, b, c, tail @ ..] = rest {
        if *a != b':' || *b != b'6' || *c != b'4' {
            return false;
        }
        rest = tail;
    }
    rest.is_empty()
}

fn is_high_digit(c: u8) -> bool
    ensures { result ≡ spec.is_high_digit c }
{
    c.is_ascii_digit() && c != b'0'
}

/// What stands behind a `0`, or all where none is there.
fn behind_zero(rest: &[u8]) -> &[u8]
    ensures { result.now ≡ spec.behind_zero rest.now }
{
    if byte(rest, 0) == b'0' {
        &rest[1..]
    } else {
        rest
    }
}

/// Whether pointers are taken, by what stands behind `p`.
#[tactic(auto, unfolding(crate::specs::Layouts::is_pointer))]
fn is_pointer(rest: &[u8]) -> bool
    ensures { result ≡ spec.is_pointer rest.now }
{
    let sizes = behind_zero(rest);
    is_high_digit(byte(rest, 0)) || (!sizes.is_empty() && are_sixty_fours(sizes))
}

/// Whether a width of three digits stands here.
fn is_wide(rest: &[u8]) -> bool
    ensures { result ≡ spec.is_wide rest.now }
{
    is_high_digit(byte(rest, 0)) && byte(rest, 1).is_ascii_digit() && byte(rest, 2).is_ascii_digit()
}

/// Whether integers are taken, by what stands behind `i`.
#[tactic(auto, unfolding(crate::specs::Layouts::is_integer))]
fn is_integer(rest: &[u8]) -> bool
    ensures { result ≡ spec.is_integer rest.now }
{
    is_wide(rest)
        || says(rest, b"1:8")
        || says(rest, b"8:8")
        || says(rest, b"16:16")
        || says(rest, b"32:32")
        || says(rest, b"64:64")
}

/// Whether a component says nothing against this project's layout.
#[tactic(auto, unfolding(crate::specs::Layouts::is_taken))]
fn is_taken(part: &[u8]) -> bool
    ensures { result ≡ spec.is_taken part.now }
{
    match byte(part, 0) {
        b'E' => false,
        b'p' => is_pointer(&part[1..]),
        b'i' => is_integer(&part[1..]),
        b'a' => says(&part[1..], b":0") || says(&part[1..], b":8"),
        _ => true,
    }
}

/// Whether no backslash stands in the bytes.
fn is_plain(text: &[u8]) -> bool
    ensures { result ≡ spec.is_plain text.now }
{
    text.iter().all(|c| *c != b'\\')
}

/// What the components so far say: whether each is taken, and whether one is `i64:64`.
#[derive(Clone, Copy)]
struct Found {
    taken: bool,
    aligned: bool,
}

/// What is known with one component more.
fn with_part(found: Found, part: &[u8]) -> Found
    ensures taken { result.taken ≡ (found.taken && spec.is_taken part.now) }
    ensures aligned { result.aligned ≡ (found.aligned || spec.is_aligned part.now) }
{
    Found {
        taken: found.taken && is_taken(part),
        aligned: found.aligned || says(part, b"i64:64"),
    }
}

/// Whether all that a layout needs was found.
fn is_enough(found: Found) -> bool
    ensures { result ≡ (found.taken && found.aligned) }
{
    found.taken && found.aligned
}

/// Whether each component of a layout is taken, and one is `i64:64`.
fn are_taken(layout: &[u8]) -> bool
    ensures { result ≡ spec.are_taken (spec.components layout.now) }
{
    let mut found = Found {
        taken: true,
        aligned: false,
    };
    for part in layout.split_str(b"-") {
        found = with_part(found, part);
    }
    is_enough(found)
}

/// Whether the inside of a string is a data layout that agrees with this project's: no backslash stands in it, none
/// of its components between dashes says otherwise, and one of them is `i64:64`.
pub fn is_layout(layout: &[u8]) -> bool
    ensures { result ≡ spec.is_layout layout.now }
{
    is_plain(layout) && are_taken(layout)
}
