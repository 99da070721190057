//! Chains of names, row by row. A line of the input has for each name the name that it leads to, by its number from 0, and
//! itself where it leads to none; behind it is printed where the chain of each ends. `long 100000` is a chain of so many
//! names, each of which leads to the one before it, and `ring 100000` a ring; the end of the last name is printed. An
//! empty line, and one that begins with `;`, is printed as it stands.
#![tactic(auto)]

use attr_ids::NoMemory;
use ir_type_names::chain_ends;
use std::alloc::Global;
use std::io;

/// The most names of a chain or a ring.
const MOST: u32 = 1_000_000;

/// The names of a chain in which each leads to the one before it; the first leads to `first`.
fn chain(alloc: Global, count: u32, first: u32) -> Result<Vec<u32>, NoMemory> {
    let mut nexts = Vec::new(alloc);
    nexts.push(first)?;
    for name in 1..count {
        nexts.push(name - 1)?;
    }
    Ok(nexts)
}

/// Where the last name of a chain leads to.
fn last_end(alloc: Global, count: &str, is_ring: bool) -> Result<String, NoMemory> {
    let count = count.parse::<u32>().unwrap_or(1).clamp(1, MOST);
    let first = if is_ring { count - 1 } else { 0 };
    let nexts = chain(alloc, count, first)?;
    let ends = chain_ends(alloc, nexts.as_slice())?;
    match ends.last() {
        Some(end) => Ok(format!(in alloc; " {end}")?),
        None => Ok(String::new(alloc)),
    }
}

/// Where each chain ends.
fn each_end(alloc: Global, text: &str) -> Result<String, NoMemory> {
    let mut nexts = Vec::new(alloc);
    for word in text.split_whitespace() {
        nexts.push(word.parse::<u32>().unwrap_or(0))?;
    }
    let ends = chain_ends(alloc, nexts.as_slice())?;
    let mut line = String::new(alloc);
    for end in &ends {
        line.push_str(format!(in alloc; " {end}")?.as_str())?;
    }
    Ok(line)
}

fn line_for(alloc: Global, text: &str) -> Result<String, NoMemory> {
    let mut line = String::from_str(alloc, text)?;
    if text.is_empty() || text.starts_with(';') {
        return Ok(line);
    }
    line.push_str(" =")?;
    let answer = if let Some(count) = text.strip_prefix("long ") {
        last_end(alloc, count, false)?
    } else if let Some(count) = text.strip_prefix("ring ") {
        last_end(alloc, count, true)?
    } else {
        each_end(alloc, text)?
    };
    line.push_str(answer.as_str())?;
    Ok(line)
}

fn main(rt: HostRuntime) -> io::Result<()> {
    for line in rt.lines(rt.alloc()) {
        match line_for(rt.alloc(), line?.as_str()) {
            Ok(text) => println!(rt; "{text}")?,
            Err(NoMemory) => println!(rt; "out of memory")?,
        }
    }
    Ok(())
}
