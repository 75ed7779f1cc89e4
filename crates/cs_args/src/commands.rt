//! The command line, as `clap` is given it.
ghost use Rattle.std.specs.Prelude.{◌≡◌, IfOk, false};
ghost use Rattle.clap.specs.Words.{app_of, rule_of};
ghost use Rattle.cs_args.specs.CommandLine.{app_of_subcommand, cronsafe_app, named_among, subcommand_named, top_app, with_all};
ghost use Rattle.cs_args.specs.Table.{IsLocal, rule_in};

use crate::table::{Argument, SUBCOMMANDS, Subcommand, Takes};
use crate::texts::{ABOUT, EXAMPLE};
use crate::version::version_text;
use clap::error::ErrorKind;
use clap::{Arg, ArgAction, Command, Error};
use std::alloc::{AllocError, Global};

/// What the help calls the values of a pair.
static PAIR: [&str; 2] = ["OLD", "NEW"];

fn arg_of<'a>(alloc: Global, argument: &Argument) -> Arg<'a>
    ensures rule { rule_of result ≡ rule_in argument.now }
    ensures local { result.global ≡ false }
{
    let name = argument.0;
    let arg = Arg::new(alloc, name).help(argument.2);
    match argument.1 {
        Takes::OptionalWord => arg,
        Takes::Word => arg.required(true),
        Takes::Words => arg.required(true).action(ArgAction::Append),
        Takes::Flag => arg.long(name).action(ArgAction::SetTrue),
        Takes::Value(value) => arg.long(name).value_name(value),
        Takes::Values(value) => arg.long(name).value_name(value).action(ArgAction::Append),
        Takes::Pair => arg.long(name).value_names(PAIR.as_slice()),
    }
}

fn command_of<'a>(alloc: Global, subcommand: Subcommand) -> Result<Command<'a>, AllocError>
    ensures app { IfOk result (λ c. app_of c ≡ app_of_subcommand subcommand) }
    ensures local { IfOk result IsLocal }
{
    let (name, about, example): (&'a str, &'a str, &'a str) = subcommand.texts();
    let mut command = Command::new(alloc, name).about(about);
    if !example.is_empty() {
        command = command.after_help(example);
    }
    for argument in subcommand.arguments() {
        command = command.arg(arg_of(alloc, argument))?;
    }
    Ok(command)
}

/// The program without its subcommands.
#[tactic(auto, unfolding(crate::specs::CommandLine::top_app))]
fn top<'a>(alloc: Global) -> Command<'a>
    ensures { app_of result ≡ top_app }
{
    Command::new(alloc, "cronsafe")
        .about(ABOUT)
        .version(version_text())
        .after_help(EXAMPLE)
        .disable_help_subcommand(true)
        .subcommand_required(true)
}

fn with_all<'a>(
    alloc: Global,
    mut command: Command<'a>,
    subcommands: &[Subcommand],
) -> Result<Command<'a>, AllocError>
    ensures { IfOk result (λ c. app_of c ≡ with_all (app_of command.entry) subcommands.now) }
{
    for subcommand in subcommands {
        command = command.subcommand(command_of(alloc, *subcommand)?)?;
    }
    Ok(command)
}

pub(crate) fn command<'a>(alloc: Global) -> Result<Command<'a>, AllocError>
    ensures { IfOk result (λ c. app_of c ≡ cronsafe_app) }
{
    with_all(alloc, top(alloc), &SUBCOMMANDS)
}

fn named_among(subcommands: &[Subcommand], name: &str) -> Option<Subcommand>
    ensures { result ≡ named_among subcommands.now name.now }
{
    for subcommand in subcommands {
        if subcommand.texts().0 == name {
            return Some(*subcommand);
        }
    }
    None
}

fn error_text(alloc: Global, error: &Error) -> Result<String, AllocError> {
    match error.to_string(alloc) {
        Ok(text) => Ok(text),
        Err(_) => Err(AllocError),
    }
}

impl Subcommand {
    #[tactic(auto, unfolding(crate::specs::CommandLine::all_subcommands))]
    pub(crate) fn named(name: &str) -> Option<Subcommand>
        ensures { result ≡ subcommand_named name.now }
    {
        named_among(&SUBCOMMANDS, name)
    }

    /// Its command line alone, as its usage names it.
    fn command<'a>(self, alloc: Global) -> Result<Command<'a>, AllocError> {
        let name = format!(in alloc; "cronsafe {}", self.texts().0)?;
        command_of(alloc, self)?.bin_name(name.as_str())
    }

    pub(crate) fn help(self, alloc: Global) -> Result<String, AllocError> {
        self.command(alloc)?.render_help()
    }

    /// What is wrong with its words, and its usage, as `clap` shows its own faults.
    pub(crate) fn fault(self, alloc: Global, message: &str) -> Result<String, AllocError> {
        let error = self
            .command(alloc)?
            .error(ErrorKind::ValueValidation, message)?;
        error_text(alloc, &error)
    }
}
