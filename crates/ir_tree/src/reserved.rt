//! Which terminal a token is.
ghost use Rattle.std.specs.Prelude.{◌≡◌, ◌<◌, ◌≤◌, ◌-◌, [], slice_index_or, length, map, slice_index};
ghost use Rattle.std.specs.List.{list_all};
ghost use Rattle.std.specs.Char.{is_ascii_digit};
ghost use Rattle.ir_tree.specs.Terminals as spec;

use crate::terminal::Terminal;
use crate::words::WORDS;
use ir_token::{Kind, Token};

/// What the row has for the word.
fn found(row: &[(&[u8], Terminal)], word: &[u8]) -> Terminal
    ensures { result ≡ spec.found (spec.entries row.now) word.now }
{
    let mut rest = row;
    while let [entry, tail @ ..] = rest {
        if entry.0 == word {
            return entry.1;
        }
        rest = tail;
    }
    Terminal::Word
}

fn row<'a>(rows: &'a [&'a [(&'a [u8], Terminal)]], letter: u8) -> &'a [(&'a [u8], Terminal)]
    requires low { 97 ≤ letter }
    requires high { letter - 97 < length rows.now }
    ensures { spec.entries result.now ≡ slice_index_or (map (λ row. spec.entries row.now) rows.now) (letter - 97) [] }
{
    rows[(letter - b'a') as usize]
}

fn all_digits(text: &[u8]) -> bool
    ensures { result ≡ list_all is_ascii_digit text.now }
{
    text.iter().all(|c| c.is_ascii_digit())
}

fn is_int_type(word: &[u8]) -> bool
    ensures { result ≡ spec.is_int_type word.now }
{
    word.len() > 1 && word[0] == b'i' && all_digits(&word[1..])
}

fn is_cc_name(word: &[u8]) -> bool
    ensures { result ≡ spec.is_cc_name word.now }
{
    let len = word.len();
    len > 2 && word[len - 2] == b'c' && word[len - 1] == b'c'
}

#[tactic(auto, unfolding(crate::specs::Terminals::row_of, crate::specs::Terminals::rows))]
fn of_word(word: &[u8]) -> Terminal
    requires { 0 < length word.now }
    ensures { result ≡ spec.of_word word.now }
{
    if is_int_type(word) {
        return Terminal::IntType;
    }
    if is_cc_name(word) {
        return Terminal::CcWord;
    }
    if word[0].is_ascii_lowercase() {
        found(row(WORDS, word[0]), word)
    } else {
        Terminal::Word
    }
}

fn of_mark(mark: u8) -> Terminal
    ensures { result ≡ spec.of_mark mark }
{
    match mark {
        b'(' => Terminal::LeftParen,
        b')' => Terminal::RightParen,
        b'[' => Terminal::LeftBracket,
        b']' => Terminal::RightBracket,
        b'{' => Terminal::LeftBrace,
        b'}' => Terminal::RightBrace,
        b'<' => Terminal::Less,
        b'>' => Terminal::Greater,
        b',' => Terminal::Comma,
        _ => Terminal::Equals,
    }
}

/// What the token is to the grammar.
pub fn terminal_of(text: &[u8], token: Token) -> Terminal
    requires some { token.span.from < token.span.to }
    requires within { token.span.to ≤ length text.now }
    ensures { result ≡ spec.terminal text.now token }
{
    let bytes = &text[token.span.from as usize..token.span.to as usize];
    match token.kind {
        Kind::Word => of_word(bytes),
        Kind::Global => Terminal::Global,
        Kind::Local => Terminal::Local,
        Kind::Comdat => Terminal::Comdat,
        Kind::Label => Terminal::Label,
        Kind::Int => Terminal::Int,
        Kind::Str => Terminal::Str,
        Kind::CStr => Terminal::CStr,
        Kind::Group => Terminal::Group,
        Kind::Meta => Terminal::Meta,
        Kind::Punct => of_mark(bytes[0]),
        Kind::Dots => Terminal::Dots,
        Kind::Opaque => Terminal::Opaque,
    }
}
