//! The parser of the command line, made with `clap`.
ghost use Rattle.std.specs.Prelude.{◌≡◌, false, IfOk};
ghost use Rattle.clap.specs.Words.{app_of, rule_of};
ghost use Rattle.clap.specs.declared.builder.command.Command.TheViews.{out-Command};
ghost use Rattle.lb_words.specs.Parser.{value_rule, generator_app, lb_app};

use clap::{Arg, ArgAction, Command};
use std::alloc::{AllocError, Global};

// An argument that has to be there, with one value.
fn value<'a>(alloc: Global, id: &'a str) -> Arg<'a>
    ensures rule { rule_of result ≡ value_rule id.entry.now }
    ensures local { result.global ≡ false }
{
    Arg::new(alloc, id).required(true).action(ArgAction::Set)
}

// A subcommand with NUMBER and ROWS.
fn generator<'a>(alloc: Global, name: &'a str) -> Result<Command<'a>, AllocError>
    ensures app { IfOk result (λ c. app_of c ≡ generator_app name.entry.now) }
    ensures local { IfOk result (λ c. (out-Command c).has_globals ≡ false) }
{
    let command = Command::new(alloc, name).arg(value(alloc, "NUMBER"))?;
    command.arg(value(alloc, "ROWS"))
}

/// The parser of the program's words: a subcommand for each command, none with a help of its own.
pub fn parser<'a>(alloc: Global) -> Result<Command<'a>, AllocError>
    ensures { IfOk result (λ c. app_of c ≡ lb_app) }
{
    let command = Command::new(alloc, "lb")
        .no_binary_name(true)
        .disable_help_flag(true)
        .disable_help_subcommand(true)
        .subcommand_required(true)
        .subcommand(Command::new(alloc, "step"))?
        .subcommand(Command::new(alloc, "run"))?
        .subcommand(Command::new(alloc, "topo"))?
        .subcommand(Command::new(alloc, "check"))?;
    let command = command.subcommand(generator(alloc, "gen")?)?;
    command.subcommand(generator(alloc, "sum")?)
}
