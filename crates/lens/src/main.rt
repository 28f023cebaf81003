//! `lens`: tells what is found of a program over singly linked lists.
#![tactic(auto)]

mod drawings;
mod picture;
mod progress;
mod why;
mod words;

use anyhow::Error;
use gh_ast::typed::Typed;
use gh_lens::front::{FrontError, admitted, read_program, refusal};
use gh_lens::overview::overview_of;
use gh_lens::progress::Silent;
use progress::Counter;
use std::alloc::{AllocError, Global};
use std::io::{self, Write};
use std::process::ExitCode;
use std::rt::{Env, Files};
use std::{env, fs};
use why::explain;
use words::{Asked, asked_of, command};

// The status where a condition is refuted, and that where something can't be read.
const REFUTED: u8 = 1;

const REFUSED: u8 = 2;

// The words after the program's name; none where they can't be had.
fn words_of<R: Env + Alloc<A = Global>>(rt: &R) -> Result<Vec<String>, AllocError> {
    let mut words = Vec::new(rt.alloc());
    if let Ok(arguments) = env::args(rt) {
        for argument in arguments.skip(1) {
            words.push(argument)?;
        }
    }
    Ok(words)
}

// Tells why a text is refused.
fn refused<R: Eprint + Alloc<A = Global>>(
    rt: &R,
    file: &str,
    error: &FrontError,
) -> Result<u8, Error> {
    let cause = refusal(rt.alloc(), error)?;
    eprintln!(rt; "{file}: {cause}")?;
    Ok(REFUSED)
}

// `lens all`.
fn all<R: Print + Eprint + Alloc<A = Global>>(
    rt: &R,
    file: &str,
    typed: &Typed,
    is_told: bool,
) -> Result<u8, Error> {
    let conditions = match admitted(rt.alloc(), typed) {
        Ok(conditions) => conditions,
        Err(error) => return refused(rt, file, &error),
    };
    let found = if is_told {
        overview_of(rt.alloc(), typed, &conditions, &mut Counter { rt })?
    } else {
        overview_of(rt.alloc(), typed, &conditions, &mut Silent)?
    };
    io::writer(rt).write_all(found.text.bytes())?;
    Ok(if found.refuted == 0 { 0 } else { REFUTED })
}

// Does what is asked.
fn answer<R: Print + Eprint + Files + Alloc<A = Global>>(
    rt: &R,
    asked: Asked<'_>,
) -> Result<u8, Error> {
    let file = asked.file();
    let text = fs::read(rt, file)?;
    let typed = match read_program(rt.alloc(), text.as_slice()) {
        Ok(typed) => typed,
        Err(error) => return refused(rt, file, &error),
    };
    match asked {
        Asked::All { is_told, .. } => all(rt, file, &typed, is_told),
        Asked::Why { choice, .. } => explain(rt, file, &typed, choice),
        Asked::Picture { choice, .. } => picture::picture(rt, file, &typed, choice),
    }
}

// The status of the words.
fn run<R: Env + Print + Eprint + Files + Alloc<A = Global>>(rt: &R) -> Result<u8, Error> {
    let words = words_of(rt)?;
    let command = command(rt.alloc())?.no_binary_name(true);
    let matches = match command.try_get_matches_from(words.as_slice()) {
        Ok(matches) => matches,
        Err(error) => {
            error.print(rt)?;
            return Ok(if error.use_stderr() { REFUSED } else { 0 });
        }
    };
    match asked_of(&matches) {
        Some(asked) => answer(rt, asked),
        None => Ok(REFUSED),
    }
}

fn main(rt: HostRuntime) -> ExitCode {
    match run(&rt) {
        Ok(status) => ExitCode::from(status),
        Err(error) => {
            let _ = eprintln!(rt; "lens: {error:#}");
            ExitCode::from(REFUSED)
        }
    }
}
