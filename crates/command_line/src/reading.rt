ghost use Rattle.std.specs.Prelude.{◌≡◌, ◌≤◌, ℕ, Some, codes, option_map};
ghost use Rattle.std.specs.Str.Parse.{IsNumeral, without_leading_plus};
ghost use Rattle.clap.specs.Words.{first_value, found_of, rows_of};
ghost use Rattle.command_line.specs.Command as spec;

use crate::asked::{Asked, Emit};
use clap::ArgMatches;

/// The number that a text writes.
fn number(text: &str) -> u32
    requires numeral { IsNumeral 10 (without_leading_plus text.now) }
    requires small { spec.number_of text.now ≤ 4000 }
    ensures { result ≡ spec.number_of text.now }
{
    text.parse::<u32>().unwrap_or(0)
}

/// What a word of `--emit` asks to be printed.
fn emit_of(word: &str) -> Emit
    requires { spec.IsEmitWord word.now }
    ensures { spec.emit_word result ≡ word.now }
{
    match word {
        "module" => Emit::Module,
        "list" => Emit::List,
        _ => Emit::Summary,
    }
}

/// How many workers the command asks for.
fn workers<'a>(matches: &ArgMatches<'a>) -> u8
    requires { spec.HasValues (found_of matches.now) }
    ensures value { option_map spec.number_of (first_value (found_of matches.now) (codes "workers")) ≡ Some result }
    ensures some { 1 ≤ result }
    ensures most { result ≤ 16 }
{
    match matches.get_str("workers") {
        Some(text) => number(text) as u8,
        None => 1,
    }
}

/// What the command asks to be printed.
fn emit<'a>(matches: &ArgMatches<'a>) -> Emit
    requires { spec.HasValues (found_of matches.now) }
    ensures { first_value (found_of matches.now) (codes "emit") ≡ Some (spec.emit_word result) }
{
    match matches.get_str("emit") {
        Some(word) => emit_of(word),
        None => Emit::Module,
    }
}

/// How many functions a module has that the command asks for.
fn generate<'a>(matches: &ArgMatches<'a>) -> Option<u32>
    requires { spec.HasValues (found_of matches.now) }
    ensures value { option_map spec.number_of (first_value (found_of matches.now) (codes "generate")) ≡ result }
    ensures bounds { (count : ℕ) → result ≡ Some count → (1 ≤ count) × (count ≤ 4000) }
{
    match matches.get_str("generate") {
        Some(text) => Some(number(text)),
        None => None,
    }
}

/// What the values ask for that a parse of the written command found.
pub(crate) fn asked<'a>(matches: &ArgMatches<'a>) -> Asked
    requires { spec.HasValues (found_of matches.now) }
    ensures asks { spec.Asks (rows_of (found_of matches.now)) result }
    ensures bounds { spec.InBounds result }
{
    Asked {
        workers: workers(matches),
        emit: emit(matches),
        generate: generate(matches),
    }
}
