// Commands and their arguments, as they are declared.

ghost use Rattle.std.specs.Prelude.{◌≡◌, IfOk, false};
ghost use Rattle.clap.specs.Words.{shape_of, rule_of};
ghost use Rattle.clap.specs.Simple.{new_shape};
ghost use Rattle.clap.specs.declared.builder.command.Command.TheViews.{out-Command};
ghost use Rattle.clap_arguments.specs.Arguments.{adding, taking, flag_rule, option_rule, word_rule, words_rule};

use clap::{Arg, ArgAction, Command};
use std::alloc::{AllocError, Global};

/// A command that takes nothing yet.
pub fn command_below<'a>(alloc: Global, name: &'a str, about: &'a str, help: &'a str) -> Command<'a>
    ensures shape { shape_of result ≡ new_shape name.entry.now }
    ensures local { (out-Command result).has_globals ≡ false }
{
    Command::new(alloc, name).about(about).long_about(help)
}

/// The command with one more argument. The only error is that memory ran out.
pub fn with_argument<'a>(command: Command<'a>, taken: Arg<'a>) -> Result<Command<'a>, AllocError>
    requires argument { taken.global ≡ false }
    requires command { (out-Command command).has_globals ≡ false }
    ensures shape { IfOk result (λ c. shape_of c ≡ adding (shape_of command.entry) (rule_of taken.entry)) }
    ensures local { IfOk result (λ c. (out-Command c).has_globals ≡ false) }
{
    let with_taken = command.arg(taken)?;
    Ok(with_taken)
}

/// A command that takes this. The only error is that memory ran out.
pub fn below<'a>(
    alloc: Global,
    name: &'a str,
    about: &'a str,
    help: &'a str,
    taken: Arg<'a>,
) -> Result<Command<'a>, AllocError>
    requires { taken.global ≡ false }
    ensures shape { IfOk result (λ c. shape_of c ≡ taking name.entry.now (rule_of taken.entry)) }
    ensures local { IfOk result (λ c. (out-Command c).has_globals ≡ false) }
{
    let command = command_below(alloc, name, about, help);
    with_argument(command, taken)
}

/// The flag of this name.
pub fn flag<'a>(alloc: Global, name: &'a str, help: &'a str) -> Arg<'a>
    ensures rule { rule_of result ≡ flag_rule name.entry.now }
    ensures local { result.global ≡ false }
{
    Arg::new(alloc, name)
        .long(name)
        .action(ArgAction::SetTrue)
        .help(help)
}

/// The option of this name, which has one value.
pub fn option_argument<'a>(alloc: Global, name: &'a str, value: &'a str, help: &'a str) -> Arg<'a>
    ensures rule { rule_of result ≡ option_rule name.entry.now }
    ensures local { result.global ≡ false }
{
    Arg::new(alloc, name)
        .long(name)
        .value_name(value)
        .action(ArgAction::Set)
        .help(help)
}

/// A word that a command takes.
pub fn word_argument<'a>(alloc: Global, name: &'a str, value: &'a str, help: &'a str) -> Arg<'a>
    ensures rule { rule_of result ≡ word_rule name.entry.now }
    ensures local { result.global ≡ false }
{
    Arg::new(alloc, name)
        .value_name(value)
        .required(true)
        .action(ArgAction::Set)
        .help(help)
}

/// The words that a command takes, one or more.
pub fn words_argument<'a>(alloc: Global, name: &'a str, value: &'a str, help: &'a str) -> Arg<'a>
    ensures rule { rule_of result ≡ words_rule name.entry.now }
    ensures local { result.global ≡ false }
{
    Arg::new(alloc, name)
        .value_name(value)
        .required(true)
        .action(ArgAction::Append)
        .help(help)
}
