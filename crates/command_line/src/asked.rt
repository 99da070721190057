use attr_ids::NoMemory;
use std::alloc::{AllocError, AllocFailed};

/// The line for words that are no command.
pub const USAGE: &[u8] =
    b"usage: attrib [--workers N] [--emit module|list|summary] [--generate N]\n";

/// What is printed.
#[derive(Clone, Copy, PartialEq, Eq)]
pub enum Emit {
    /// The module with the words added.
    Module,
    /// A line for each word that is added.
    List,
    /// How many words are added of each kind.
    Summary,
}

/// What a command asks for.
#[derive(Clone, Copy, PartialEq, Eq)]
pub struct Asked {
    /// How many workers there are, from 1 to 16.
    pub workers: u8,
    pub emit: Emit,
    /// How many functions a module has that is made in place of the one that is read, from 1 to 4,000.
    pub generate: Option<u32>,
}

/// Why a command is not read.
#[derive(Clone, Copy, PartialEq, Eq)]
pub enum CommandRefusal {
    /// The words are no command, or ask for help or a version.
    Usage,
    NoMemory,
}

impl From<NoMemory> for CommandRefusal {
    ghost use Rattle.std.specs.Prelude.{◌≡◌};
    ghost use Rattle.command_line.specs.declared.asked.CommandRefusal.TheVariants as refusal;

    ghost from_gives = { λ _ e. e ≡ refusal.NoMemory };

    fn from(_error: NoMemory) -> CommandRefusal {
        CommandRefusal::NoMemory
    }
}

impl From<AllocError> for CommandRefusal {
    ghost use Rattle.std.specs.Prelude.{◌≡◌};
    ghost use Rattle.command_line.specs.declared.asked.CommandRefusal.TheVariants as refusal;

    ghost from_gives = { λ _ e. e ≡ refusal.NoMemory };

    fn from(_error: AllocError) -> CommandRefusal {
        CommandRefusal::NoMemory
    }
}
