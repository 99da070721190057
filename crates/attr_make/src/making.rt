ghost use Rattle.std.specs.Prelude.{◌≡◌, ◌++◌, ◌≤◌, map, codes, IfOk, OnOk};
ghost use Rattle.std.specs.List.{flat_map, range_with_len};
ghost use Rattle.attr_make.specs.Made.{as_text, call_line, function_lines, made};

use crate::line::{put_call, put_function};
use attr_ids::{NoMemory, Text};
use std::alloc::Global;

/// The greatest number of functions of a module that is made.
pub const MAX_FUNCTIONS: u32 = 4_000;

fn put_functions(text: &mut Vec<u8>, count: u32) -> Result<(), NoMemory>
    ensures { OnOk result (text.new.items ≡ text.old.items ++ as_text (flat_map function_lines (range_with_len 0 count))) }
{
    for name in 0..count {
        put_function(text, name)?;
    }
    Ok(())
}

fn put_calls(text: &mut Vec<u8>, count: u32) -> Result<(), NoMemory>
    ensures { OnOk result (text.new.items ≡ text.old.items ++ as_text (map (λ name. call_line name (codes "@g")) (range_with_len 0 count))) }
{
    for name in 0..count {
        put_call(text, name, b"@g")?;
    }
    Ok(())
}

/// The module of `count` functions. Without memory there is none.
pub fn make(alloc: Global, count: u32) -> Result<Text, NoMemory>
    requires some { 1 ≤ count }
    requires most { count ≤ MAX_FUNCTIONS }
    ensures { IfOk result (λ text. text ≡ made count) }
{
    let mut text = Vec::from_slice(alloc, b"@g = global i32 0, align 4\n")?;
    put_functions(&mut text, count)?;
    text.extend_from_slice(b"define void @main() {\n")?;
    put_calls(&mut text, count)?;
    text.extend_from_slice(b"  ret void\n}\n")?;
    Ok(Text::from_vec(text))
}
