//! Literals and attributes, row by row. A line of the input asks; it is printed again with its answer behind it. An empty
//! line, and one that begins with `;`, is printed as it stands.
//!
//! - `int 8 -128`: the bits of a literal at a width, `-` where it does not fit.
//! - `number 5`, `align 5`, `count 5`: the number of a literal, the alignment and the count that it stands for.
//! - `read a\5cb`: what the inside of a string is read as, byte by byte.
//! - `layout e-i64:64`: whether a data layout agrees with this project's.
//! - `module ..`: what the attributes of the functions, calls and globals of a module say, and where words are added.
//!   `memory` is told as three numbers: the default, the memory of arguments and what is inaccessible; 1 reads, 2 writes.
#![tactic(auto)]

mod line;
mod module;
mod show;

use ir_literals::{align_at, count_at, is_layout, literal_at, number_at, push_read, read_len};
use line::Line;
use std::alloc::Global;
use std::io;

/// The bits of a literal at a width.
fn int(rest: &str, line: &mut Line) {
    let Some((width, text)) = rest.split_once(' ') else {
        return;
    };
    match width.parse::<u32>() {
        Ok(width) if width >= 1 && width <= 64 => {
            line.number_or(literal_at(text.as_bytes(), width), "-");
        }
        _ => line.put("no width"),
    }
}

fn put_bytes(line: &mut Line, bytes: &[u8]) {
    for byte in bytes {
        line.put(" ");
        line.number(*byte as u64);
    }
}

fn read(alloc: Global, text: &[u8], line: &mut Line) {
    let mut bytes = Vec::new(alloc);
    if push_read(&mut bytes, text).is_err() {
        return line.lose();
    }
    line.number(read_len(text) as u64);
    line.put(":");
    put_bytes(line, bytes.as_slice())
}

fn answer(alloc: Global, question: &str, rest: &str, line: &mut Line) {
    let text = rest.as_bytes();
    match question {
        "int" => int(rest, line),
        "number" => line.number_or(number_at(text), "-"),
        "align" => line.number(align_at(text)),
        "count" => line.number(count_at(text)),
        "read" => read(alloc, text, line),
        "layout" => line.put(if is_layout(text) { "yes" } else { "no" }),
        "module" => module::told(alloc, text, line),
        _ => line.put("?"),
    }
}

fn put_line(alloc: Global, text: &str, line: &mut Line) {
    line.put(text);
    if text.starts_with(';') {
        return;
    }
    if let Some((question, rest)) = text.split_once(' ') {
        line.put(" = ");
        answer(alloc, question, rest, line);
    }
}

fn print(rt: &HostRuntime, text: &str) -> io::Result<()> {
    let mut line = Line::new(rt.alloc());
    put_line(rt.alloc(), text, &mut line);
    if !line.is_whole {
        return println!(rt; "out of memory");
    }
    println!(rt; "{}", line.text.as_str())
}

fn main(rt: HostRuntime) -> io::Result<()> {
    for text in rt.lines(rt.alloc()) {
        print(&rt, text?.as_str())?;
    }
    Ok(())
}
