//! What the scanner of the profile answers.
use ir_token::{LexRefusal, MAX_BYTES, Token, Tokens, nesting, tokens};
use std::alloc::{AllocError, Global};

/// The answer of the scanner, and none for a text that is too long for it.
fn read(alloc: Global, text: &[u8]) -> Option<Result<Tokens, LexRefusal>> {
    if text.len() <= MAX_BYTES {
        Some(tokens(alloc, text))
    } else {
        None
    }
}

/// Where a text is refused.
fn refusal_of(alloc: Global, refusal: LexRefusal) -> Result<String, AllocError> {
    match refusal {
        LexRefusal::BadByte { at } => format!(in alloc; "BadByte {at}"),
        LexRefusal::OpenString { at } => format!(in alloc; "OpenString {at}"),
        LexRefusal::LeftOut { word } => {
            let (from, to) = (word.from, word.to);
            format!(in alloc; "LeftOut {from} {to}")
        }
        LexRefusal::TooMany { count } => format!(in alloc; "TooMany {count}"),
        LexRefusal::NoMemory => String::from_str(alloc, "NoMemory"),
    }
}

/// The kind of each token, and where it ends.
fn kinds_of(alloc: Global, toks: &Tokens) -> Result<String, AllocError> {
    let mut line = String::new(alloc);
    for token in toks.as_slice() {
        if !line.is_empty() {
            line.push_str(" ")?;
        }
        let (kind, end) = (token.kind, token.span.to);
        line.push_str(format!(in alloc; "{kind:?} {end}")?.as_str())?;
    }
    Ok(line)
}

pub fn tokens_of(alloc: Global, text: &[u8]) -> Result<String, AllocError> {
    match read(alloc, text) {
        Some(Ok(toks)) => kinds_of(alloc, &toks),
        Some(Err(refusal)) => refusal_of(alloc, refusal),
        None => String::from_str(alloc, "too long"),
    }
}

pub fn nesting_of(alloc: Global, text: &[u8]) -> Result<String, AllocError> {
    match read(alloc, text) {
        Some(Ok(toks)) => {
            let deep = nesting(&toks, text);
            format!(in alloc; "{deep}")
        }
        Some(Err(refusal)) => refusal_of(alloc, refusal),
        None => String::from_str(alloc, "too long"),
    }
}

pub fn counts_of(alloc: Global, text: &[u8]) -> Result<String, AllocError> {
    match read(alloc, text) {
        Some(Ok(toks)) => {
            let (count, deep) = (toks.len(), nesting(&toks, text));
            format!(in alloc; "{count} tokens, nesting {deep}")
        }
        Some(Err(refusal)) => refusal_of(alloc, refusal),
        None => String::from_str(alloc, "too long"),
    }
}

/// The last place that an answer names.
fn last_place(answer: &Option<Result<Tokens, LexRefusal>>) -> u32 {
    match answer {
        Some(Ok(toks)) => toks.as_slice().last().map_or(0, |token| token.span.to),
        Some(Err(LexRefusal::BadByte { at })) => *at,
        Some(Err(LexRefusal::OpenString { at })) => *at,
        Some(Err(LexRefusal::LeftOut { word })) => word.to,
        _ => u32::MAX,
    }
}

pub fn prefixes_of(alloc: Global, text: &[u8]) -> Result<String, AllocError> {
    for end in 0..=text.len() {
        if last_place(&read(alloc, &text[..end])) as usize > end {
            return format!(in alloc; "the prefix of {end} bytes is answered beyond it");
        }
    }
    let count = text.len();
    format!(in alloc; "{count} bytes, and each prefix is answered within it")
}

pub fn size_of_a_token(alloc: Global) -> Result<String, AllocError> {
    let size = size_of::<Token>();
    format!(in alloc; "{size} bytes")
}
