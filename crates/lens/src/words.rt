// The command line.

use clap::builder::ValueParser;
use clap::{Arg, ArgAction, ArgMatches, Command};
use std::alloc::{AllocError, Global};

/// Which counterexample is told or drawn: that of the condition that an overview names first, that of the condition of
/// a number, or that of a file.
#[derive(Clone, Copy)]
pub(crate) enum Choice<'a> {
    First,
    Number(u32),
    Drawing(&'a str),
}

/// What the words ask for.
#[derive(Clone, Copy)]
pub(crate) enum Asked<'a> {
    All { file: &'a str, is_told: bool },
    Why { file: &'a str, choice: Choice<'a> },
    Picture { file: &'a str, choice: Choice<'a> },
}

impl<'a> Asked<'a> {
    /// The name of the program's file.
    pub(crate) fn file(self) -> &'a str {
        match self {
            Asked::All { file, .. } => file,
            Asked::Why { file, .. } => file,
            Asked::Picture { file, .. } => file,
        }
    }
}

// A word that must be there.
fn operand<'a>(alloc: Global, name: &'a str, help: &'a str) -> Arg<'a> {
    Arg::new(alloc, name)
        .required(true)
        .action(ArgAction::Set)
        .help(help)
}

fn all_command<'a>(alloc: Global) -> Result<Command<'a>, AllocError> {
    let progress = Arg::new(alloc, "progress")
        .long("progress")
        .action(ArgAction::SetTrue)
        .help("Tell on standard error how many conditions are settled");
    let command = Command::new(alloc, "all").about(
        "Decide every condition of a program, and list them in the order in which to look",
    );
    command
        .arg(operand(alloc, "FILE", "The text of the program"))?
        .arg(progress)
}

// A command that tells or draws the counterexample of a choice.
fn choosing<'a>(alloc: Global, name: &'a str, about: &'a str) -> Result<Command<'a>, AllocError> {
    let drawing = Arg::new(alloc, "drawing")
        .long("drawing")
        .value_name("DRAWING")
        .action(ArgAction::Set)
        .help("Take the counterexample from what `grass check` or `grass smallest` answered");
    let condition = condition_operand(alloc)
        .required(false)
        .conflicts_with("drawing")?;
    Command::new(alloc, name)
        .about(about)
        .arg(operand(alloc, "FILE", "The text of the program"))?
        .arg(condition)?
        .arg(drawing)
}

fn why_command<'a>(alloc: Global) -> Result<Command<'a>, AllocError> {
    let about = "Tell the smallest counterexample of a condition step by step";
    choosing(alloc, "why", about)
}

fn picture_command<'a>(alloc: Global) -> Result<Command<'a>, AllocError> {
    let about = "Draw the smallest counterexample of a condition as one SVG, a row for each state";
    choosing(alloc, "picture", about)
}

// The number of a condition.
fn condition_operand<'a>(alloc: Global) -> Arg<'a> {
    let operand = operand(alloc, "CONDITION", "The number of the condition");
    operand.value_parser(ValueParser::Unsigned(1, 4_294_967_295))
}

/// The command line with its help texts.
pub(crate) fn command<'a>(alloc: Global) -> Result<Command<'a>, AllocError> {
    let command = Command::new(alloc, "lens")
        .about("Tells what is found of a program over singly linked lists")
        .subcommand_required(true);
    command
        .subcommand(all_command(alloc)?)?
        .subcommand(why_command(alloc)?)?
        .subcommand(picture_command(alloc)?)
}

// Which counterexample the words of a command ask for.
fn choice_of<'a>(matches: &ArgMatches<'a>) -> Choice<'a> {
    if let Some(drawing) = matches.get_str("drawing") {
        return Choice::Drawing(drawing);
    }
    match matches.get_one::<u32>("CONDITION") {
        Some(number) => Choice::Number(number),
        None => Choice::First,
    }
}

/// What the words ask for, if they are whole.
pub(crate) fn asked_of<'a>(matches: &ArgMatches<'a>) -> Option<Asked<'a>> {
    let (name, inner) = matches.subcommand()?;
    let file = inner.get_str("FILE")?;
    match name {
        "why" => Some(Asked::Why {
            file,
            choice: choice_of(inner),
        }),
        "picture" => Some(Asked::Picture {
            file,
            choice: choice_of(inner),
        }),
        _ => Some(Asked::All {
            file,
            is_told: inner.get_flag("progress"),
        }),
    }
}
