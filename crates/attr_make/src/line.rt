ghost use Rattle.std.specs.Prelude.{◌≡◌, ◌++◌, [], ◌∷◌, OnOk};
ghost use Rattle.attr_make.specs.Made.{as_text, call_line, function_lines, header_line, work_lines};

use attr_ids::NoMemory;
use itoa::Buffer;

/// Puts the call of a function, with one argument, behind the text.
pub fn put_call(text: &mut Vec<u8>, callee: u32, argument: &[u8]) -> Result<(), NoMemory>
    ensures { OnOk result (text.new.items ≡ text.old.items ++ as_text (call_line callee argument.now ∷ [])) }
{
    let mut buffer = Buffer::new();
    text.extend_from_slice(b"  call void @f")?;
    text.extend_from_slice(buffer.format(callee).as_bytes())?;
    text.extend_from_slice(b"(ptr ")?;
    text.extend_from_slice(argument)?;
    text.extend_from_slice(b")\n")?;
    Ok(())
}

/// Puts the first line of a function behind the text.
fn put_header(text: &mut Vec<u8>, name: u32) -> Result<(), NoMemory>
    ensures { OnOk result (text.new.items ≡ text.old.items ++ as_text (header_line name ∷ [])) }
{
    let mut buffer = Buffer::new();
    text.extend_from_slice(b"define internal void @f")?;
    text.extend_from_slice(buffer.format(name).as_bytes())?;
    text.extend_from_slice(b"(ptr %p) {\n")?;
    Ok(())
}

/// Puts what a function does before it returns behind the text.
fn put_work(text: &mut Vec<u8>, name: u32) -> Result<(), NoMemory>
    ensures { OnOk result (text.new.items ≡ text.old.items ++ as_text (work_lines name)) }
{
    if name == 0 {
        text.extend_from_slice(b"  store i32 0, ptr %p, align 4\n")?;
        return Ok(());
    }
    match name % 3 {
        0 => put_call(text, name - 1, b"%p"),
        1 => {
            text.extend_from_slice(b"  %v = load i32, ptr %p, align 4\n")?;
            put_call(text, name / 2, b"%p")
        }
        _ => {
            text.extend_from_slice(b"  %a = alloca i64, align 8\n")?;
            put_call(text, name - 1, b"%a")
        }
    }
}

/// Puts a function behind the text.
pub fn put_function(text: &mut Vec<u8>, name: u32) -> Result<(), NoMemory>
    ensures { OnOk result (text.new.items ≡ text.old.items ++ as_text (function_lines name)) }
{
    put_header(text, name)?;
    put_work(text, name)?;
    text.extend_from_slice(b"  ret void\n}\n")?;
    Ok(())
}
