ghost use Rattle.std.specs.Prelude.{◌≡◌, [], IfOk, false};
ghost use Rattle.clap.specs.Words.{app_of, rule_of};
ghost use Rattle.clap.specs.declared.builder.value_parser.ValueParser.TheVariants as parser;
ghost use Rattle.command_line.specs.Command as spec;

use attr_make::MAX_FUNCTIONS;
use clap::builder::ValueParser;
use clap::{Arg, ArgAction, Command};
use std::alloc::{AllocError, Global};

/// The most workers.
const MAX_WORKERS: u64 = 16;

/// An option `--NAME` that takes one value.
fn option<'a>(alloc: Global, name: &'a str, parser: ValueParser<'a>) -> Arg<'a>
    ensures rule { rule_of result ≡ spec.option_rule name.now parser.entry [] }
    ensures local { result.global ≡ false }
{
    Arg::new(alloc, name)
        .long(name)
        .action(ArgAction::Set)
        .value_parser(parser)
}

/// The written command, with the words that `--emit` takes.
pub(crate) fn written<'a>(alloc: Global, names: &'a [&'a str]) -> Result<Command<'a>, AllocError>
    ensures { IfOk result (λ c. app_of c ≡ spec.written names.entry) }
{
    let workers = option(alloc, "workers", ValueParser::unsigned(1, MAX_WORKERS)).default_value(
        "4",
    );
    let emit = option(alloc, "emit", ValueParser::Names(names)).default_value("module");
    let generate = option(
        alloc,
        "generate",
        ValueParser::unsigned(1, u64::from(MAX_FUNCTIONS)),
    );
    Command::new(alloc, "attrib")
        .arg(workers)?
        .arg(emit)?
        .arg(generate)
}
