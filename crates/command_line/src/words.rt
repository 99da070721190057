ghost use Rattle.std.specs.Prelude.{◌≡◌, ◌≢◌, ◌⊎◌, IfOk, map};
ghost use Rattle.std.specs.String.{string_bytes};
ghost use Rattle.clap.specs.Words.{kind_of};
ghost use Rattle.command_line.specs.Command as spec;
ghost use Rattle.command_line.specs.declared.asked.Asked.{Asked};

use crate::asked::{Asked, CommandRefusal};
use crate::reading::asked;
use crate::written::written;
use attr_ids::NoMemory;
use clap::Error;
use clap::error::ErrorKind;
use std::alloc::Global;

/// The words that `--emit` takes.
const EMIT_WORDS: [&str; 3] = ["module", "list", "summary"];

/// The words with the command's name in front.
fn line<'a>(alloc: Global, words: &'a [String]) -> Result<Vec<&'a str>, NoMemory>
    ensures { IfOk result (λ line. map (λ word. word.now) line.items ≡ spec.line (map string_bytes words.now)) }
{
    let mut line = Vec::new(alloc);
    line.push("attrib")?;
    for word in words {
        line.push(word.as_str())?;
    }
    Ok(line)
}

/// What an error of the parser means.
fn refusal(error: &Error) -> CommandRefusal
    ensures memory { kind_of error.now ≡ ErrorKind.OutOfMemory → result ≡ CommandRefusal.NoMemory }
    ensures usage { result ≡ CommandRefusal.Usage → kind_of error.now ≢ ErrorKind.OutOfMemory }
{
    match error.kind() {
        ErrorKind::OutOfMemory => CommandRefusal::NoMemory,
        _ => CommandRefusal::Usage,
    }
}

/// What the words behind the program's name ask for.
pub fn command(alloc: Global, words: &[String]) -> Result<Asked, CommandRefusal>
    ensures asks { IfOk result (spec.IsAsked (map string_bytes words.now)) }
    ensures bounds { IfOk result spec.InBounds }
    ensures usage { result ≡ Err CommandRefusal.Usage → spec.IsRefused (map string_bytes words.now) }
    ensures refused { spec.IsRefused (map string_bytes words.now) → (result ≡ Err CommandRefusal.Usage) ⊎ (result ≡ Err CommandRefusal.NoMemory) }
    ensures taken { (a : Asked) → spec.IsAsked (map string_bytes words.now) a → (result ≡ Ok a) ⊎ (result ≡ Err CommandRefusal.NoMemory) }
{
    let line = line(alloc, words)?;
    let names = EMIT_WORDS;
    let command = written(alloc, names.as_slice())?;
    match command.try_get_matches_from(line.as_slice()) {
        Ok(matches) => Ok(asked(&matches)),
        Err(error) => Err(refusal(&error)),
    }
}
