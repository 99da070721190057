//! Made modules, as they are printed. A line of the input is a command and a number of functions:
//!
//! - `whole 3`: the module of three functions.
//! - `sum 4000`: how many bytes the module has, and a sum over them, each byte after 31 times what was before,
//!   modulo 2 ^ 64.
//!
//! That the text is the one that the definition says is proved; these rows hold the definition against the
//! texts that `bench/make/made.py` writes.
#![tactic(auto)]

use attr_make::{MAX_FUNCTIONS, make};
use std::alloc::{AllocError, Global};
use std::io;

/// What is multiplied into the sum before each byte.
const FACTOR: u64 = 31;

/// The sum over the bytes of a text.
fn sum_over(text: &[u8]) -> u64 {
    let mut sum = 0u64;
    for byte in text {
        sum = sum.wrapping_mul(FACTOR).wrapping_add(u64::from(*byte));
    }
    sum
}

/// What is printed for a command and a number of functions.
fn answer(alloc: Global, command: &str, count: &str) -> Result<String, AllocError> {
    let Ok(count) = count.parse::<u32>() else {
        return String::from_str(alloc, "no number");
    };
    if count < 1 || count > MAX_FUNCTIONS {
        return String::from_str(alloc, "no module");
    }
    let Ok(text) = make(alloc, count) else {
        return String::from_str(alloc, "no memory");
    };
    let bytes = text.as_slice();
    match command {
        "whole" => String::from_utf8_lossy(alloc, bytes),
        "sum" => {
            let len = bytes.len();
            let sum = sum_over(bytes);
            format!(in alloc; "{len} {sum}")
        }
        _ => String::from_str(alloc, "no row"),
    }
}

fn main(rt: HostRuntime) -> io::Result<()> {
    for line in rt.lines(rt.alloc()) {
        if let Some((command, count)) = line?.as_str().split_once(' ') {
            let text = answer(rt.alloc(), command, count)?;
            println!(rt; "{text}")?;
        }
    }
    Ok(())
}
