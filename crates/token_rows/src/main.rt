//! What the scanners answer, row by row. A line of the input names what is to be done, and a text; the
//! line that is printed for it says what the text is read as. That the answer is the one list of tokens
//! is proved; these rows hold the definitions against texts as people write them.
//!
//! - `tokens %0 = x`: the kind of each token, and where it ends; or where the text is refused.
//! - `nesting ( [ ) ]`: the greatest number of brackets that are open at once.
//! - `repeat 257 {`: how many tokens the text has that stands there so many times, and their nesting.
//! - `prefixes %0 = x`: how many prefixes the text has, and whether each is answered within it.
//! - `size`: how many bytes a token takes.
//!
//! In a text `\n`, `\r`, `\t`, `\\` and `\xHH` stand for a byte. An empty line, and one that begins with
//! `;`, is printed as it stands.
#![tactic(auto)]

mod profile;
mod row;

use std::alloc::{AllocError, Global};
use std::io;

/// The line that is printed for a command and its text.
fn answer(alloc: Global, command: &str, text: &str) -> Result<String, AllocError> {
    match command {
        "tokens" => profile::tokens_of(alloc, row::unescaped(alloc, text)?.as_slice()),
        "nesting" => profile::nesting_of(alloc, row::unescaped(alloc, text)?.as_slice()),
        "repeat" => profile::counts_of(alloc, row::repeated(alloc, text)?.as_slice()),
        "prefixes" => profile::prefixes_of(alloc, row::unescaped(alloc, text)?.as_slice()),
        "size" => profile::size_of_a_token(alloc),
        _ => String::from_str(alloc, "no row"),
    }
}

/// The line that is printed for a line of the input.
fn line_for(alloc: Global, line: &str) -> Result<String, AllocError> {
    if line.is_empty() || line.starts_with(';') {
        return String::from_str(alloc, line);
    }
    match line.split_once(' ') {
        Some((command, text)) => answer(alloc, command, text),
        None => answer(alloc, line, ""),
    }
}

fn main(rt: HostRuntime) -> io::Result<()> {
    for line in rt.lines(rt.alloc()) {
        let text = line_for(rt.alloc(), line?.as_str())?;
        println!(rt; "{text}")?;
    }
    Ok(())
}
