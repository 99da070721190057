//! What the parsers of the grammar answer, row by row. A line of the input names what is to be done, a
//! production and a text; the line that is printed for it says where the longest tree of the production
//! ends, what one of its parts is, or where the text is refused. That the tree fits the tokens, and is
//! the longest, is proved; these rows hold the productions against texts as people write them.
//!
//! - `end type [3 x i8]`: where the tree ends, as the number of the token behind it and its first byte.
//!   `end type@2 ..` reads from token 2 on.
//! - `drop type [3 x i8]`: for each token of the text, where the tree ends once blanks stand in its place.
//! - `show ftype (i32, ...)`: a part of the tree.
//! - `words - define i32`: what each token is to the grammar.
//!
//! An empty line, and one that begins with `;`, is printed as it stands.
#![tactic(auto)]

mod line;
mod outcome;
mod parts;
mod row;
mod show;
mod show_module;

use line::Line;
use std::alloc::Global;
use std::io;

/// Puts the answer to a row: what is to be done, with which production and of which text.
fn put_answer(alloc: Global, line: &mut Line, mode: &str, production: &str, text: &[u8]) {
    let (name, at) = row::place(production);
    match mode {
        "end" => outcome::read(alloc, name, at, text).put_whole(line),
        "drop" => outcome::put_without_each(alloc, line, name, at, text),
        "show" => show::put_shown(alloc, line, name, text),
        "words" => outcome::put_words(alloc, line, text),
        _ => line.put("no row"),
    }
}

/// Puts what is printed for a line of the input.
fn put_line(alloc: Global, line: &mut Line, text: &str) {
    if text.is_empty() || text.starts_with(';') {
        return line.put(text);
    }
    let Some((mode, rest)) = text.split_once(' ') else {
        return line.put("no row");
    };
    let Some((production, written)) = rest.split_once(' ') else {
        return line.put("no row");
    };
    match row::text_of(alloc, written) {
        Some(text) => put_answer(alloc, line, mode, production, &text),
        None => line.lose(),
    }
}

fn print(rt: &HostRuntime, text: &str) -> io::Result<()> {
    let mut line = Line::new(rt.alloc());
    put_line(rt.alloc(), &mut line, text);
    if line.is_lost {
        return println!(rt; "out of memory");
    }
    println!(rt; "{}", line.as_str())
}

fn main(rt: HostRuntime) -> io::Result<()> {
    for text in rt.lines(rt.alloc()) {
        print(&rt, text?.as_str())?;
    }
    Ok(())
}
