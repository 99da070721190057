//! Classes of bytes.
ghost use Rattle.std.specs.Prelude.{◌≡◌, ◌<◌, length, slice_index};
ghost use Rattle.ir_token.specs.Bytes as spec;

// Each byte of a label stands at its own place, and a comma at every other place.
static LABEL_BYTES: [u8; 256] = *b"\
    ,,,,,,,,,,,,,,,,,,,,,,,,,,,,,,,,\
    ,,,,$,,,,,,,,-.,0123456789,,,,,,\
    ,ABCDEFGHIJKLMNOPQRSTUVWXYZ,,,,_\
    ,abcdefghijklmnopqrstuvwxyz,,,,,\
    ,,,,,,,,,,,,,,,,,,,,,,,,,,,,,,,,\
    ,,,,,,,,,,,,,,,,,,,,,,,,,,,,,,,,\
    ,,,,,,,,,,,,,,,,,,,,,,,,,,,,,,,,\
    ,,,,,,,,,,,,,,,,,,,,,,,,,,,,,,,,";

// Each byte of a word stands at its own place, and a comma at every other place.
static WORD_BYTES: [u8; 256] = *b"\
    ,,,,,,,,,,,,,,,,,,,,,,,,,,,,,,,,\
    ,,,,,,,,,,,,,,.,0123456789,,,,,,\
    ,ABCDEFGHIJKLMNOPQRSTUVWXYZ,,,,_\
    ,abcdefghijklmnopqrstuvwxyz,,,,,\
    ,,,,,,,,,,,,,,,,,,,,,,,,,,,,,,,,\
    ,,,,,,,,,,,,,,,,,,,,,,,,,,,,,,,,\
    ,,,,,,,,,,,,,,,,,,,,,,,,,,,,,,,,\
    ,,,,,,,,,,,,,,,,,,,,,,,,,,,,,,,,";

/// The byte at a place, and 0 past the end.
pub fn byte(text: &[u8], at: usize) -> u8
    ensures value { result ≡ slice_index text.now at }
    ensures within { 0 < result → at < length text.now }
{
    if at < text.len() { text[at] } else { 0 }
}

pub fn is_blank(c: u8) -> bool
    ensures { result ≡ spec.is_blank c }
{
    c == b' ' || c == b'\t' || c == b'\r' || c == b'\n'
}

pub fn ends_comment(c: u8) -> bool
    ensures { result ≡ spec.ends_comment c }
{
    c == b'\n' || c == b'\r'
}

pub fn begins_word(c: u8) -> bool
    ensures { result ≡ spec.begins_word c }
{
    c.is_ascii_alphabetic() || c == b'_'
}

pub fn is_word(c: u8) -> bool
    ensures { result ≡ spec.is_word c }
{
    WORD_BYTES[c as usize] != b','
}

pub fn is_label(c: u8) -> bool
    ensures { result ≡ spec.is_label c }
{
    LABEL_BYTES[c as usize] != b','
}

pub fn is_meta(c: u8) -> bool
    ensures { result ≡ spec.is_meta c }
{
    is_label(c) || c == b'\\'
}

pub fn is_punct(c: u8) -> bool
    ensures { result ≡ spec.is_punct c }
{
    matches!(
        c,
        b'(' | b')' | b'[' | b']' | b'{' | b'}' | b'<' | b'>' | b',' | b'='
    )
}
