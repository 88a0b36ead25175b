//! The program and its subcommands, as clap takes them.

use crate::table::{
    FORMS, KINDS, OPTIONS, Operand, Shape, Word, file_words, report_words, thread_words,
};
use crate::version::VERSION;
use clap::{Arg, ArgAction, Command, value_parser};
use std::alloc::{AllocError, Global};

/// The place of an option that help lists after all others, as it lists `--help`.
const LAST: usize = 999;

// Returns the option of this name with a kind of finding, whose names help lists if it is `--kind`.
fn kind_arg<'a>(arg: Arg<'a>, word: &'static str) -> Arg<'a> {
    arg.long(word)
        .value_name("KIND")
        .value_parser(KINDS)
        .hide_possible_values(word != "kind")
        .action(ArgAction::Append)
}

// Returns an operand as clap's argument.
fn arg_of<'a>(alloc: Global, operand: &'a Operand) -> Result<Arg<'a>, AllocError> {
    let arg = Arg::new(alloc, operand.name).help(operand.help);
    Ok(match operand.shape {
        Shape::File => arg.required(true).action(ArgAction::Set),
        Shape::Files => arg.required(true).num_args(1..).action(ArgAction::Append),
        Shape::Named(word) => arg.long(word).action(ArgAction::Set),
        Shape::Number(word) => arg
            .long(word)
            .value_parser(value_parser!(u32))
            .action(ArgAction::Set),
        Shape::Port => arg
            .long("port")
            .required(true)
            .value_parser(value_parser!(u16))
            .action(ArgAction::Set),
        Shape::Form => arg
            .long("form")
            .default_value("2")
            .value_parser(FORMS)
            .action(ArgAction::Set),
        Shape::Kind(word) => kind_arg(arg, word),
        Shape::Allow => kind_arg(arg, "allow")
            .conflicts_with("KIND")?
            .conflicts_with("UNTIL")?,
        Shape::Flag(word) => arg.long(word).action(ArgAction::SetTrue),
        Shape::Sarif => arg
            .long("sarif")
            .action(ArgAction::SetTrue)
            .conflicts_with("json")?,
        Shape::Seed => arg
            .long("seed")
            .value_parser(value_parser!(u64))
            .action(ArgAction::Set),
        Shape::Until => arg
            .long("until")
            .value_name("P = V")
            .action(ArgAction::Append)
            .conflicts_with("KIND")?,
    })
}

// Returns operands as clap's arguments.
fn args_of<'a>(alloc: Global, operands: &'a [Operand]) -> Result<Vec<Arg<'a>>, AllocError> {
    let mut args = Vec::new(alloc);
    for operand in operands {
        args.push(arg_of(alloc, operand)?)?;
    }
    Ok(args)
}

// Returns a subcommand as clap's command.
fn command_of<'a>(alloc: Global, word: &'a Word) -> Result<Command<'a>, AllocError> {
    let args = args_of(alloc, word.operands)?;
    Command::new(alloc, word.name)
        .about(word.about)
        .after_help(word.after)
        .args(args)
}

// Appends subcommands as clap's commands.
fn add_commands<'a>(
    alloc: Global,
    commands: &mut Vec<Command<'a>>,
    words: &'a [Word],
) -> Result<(), AllocError> {
    for word in words {
        commands.push(command_of(alloc, word)?)?;
    }
    Ok(())
}

// Returns all subcommands, as help lists them.
fn all_commands<'a>(alloc: Global) -> Result<Vec<Command<'a>>, AllocError> {
    let mut commands = Vec::new(alloc);
    add_commands(alloc, &mut commands, file_words())?;
    add_commands(alloc, &mut commands, report_words())?;
    add_commands(alloc, &mut commands, thread_words())?;
    Ok(commands)
}

// Returns the option that prints the version.
fn version_option<'a>(alloc: Global) -> Arg<'a> {
    Arg::new(alloc, "version")
        .short('V')
        .long("version")
        .help("Print version")
        .display_order(LAST)
        .action(ArgAction::Version)
}

// Returns the program without its subcommands.
fn bare_program<'a>(alloc: Global) -> Result<Command<'a>, AllocError> {
    Command::new(alloc, "uringwalk")
        .version(VERSION)
        .disable_version_flag(true)
        .about("A reversible debugger for io_uring programs")
        .after_help(OPTIONS)
        .subcommand_required(true)
        .arg(version_option(alloc))
}

/// Returns the program with all its subcommands.
pub(crate) fn program<'a>(alloc: Global) -> Result<Command<'a>, AllocError> {
    let commands = all_commands(alloc)?;
    bare_program(alloc)?.subcommands(commands)
}
