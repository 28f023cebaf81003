//! `grass`: a verifier for programs over singly linked lists.
#![tactic(auto)]

mod files;
mod output;
#[cfg(test)]
mod tests;

use files::FileInputs;
use gh_top::run::run;
use gh_top::status::Status;
use gh_top::words::Words;
use output::WriterSink;
use std::alloc::{AllocError, Global};
use std::env;
use std::io::{self, ErrorKind};
use std::process::ExitCode;
use std::rt::Env;

// The words after the program's name. Where they can't be had, as where one isn't UTF-8, there are
// none, which is no request.
fn words_of(rt: &(impl Env + Alloc<A = Global>)) -> Result<Words, AllocError> {
    let mut words = Words::new(rt.alloc());
    match env::args(rt) {
        Ok(arguments) => {
            for argument in arguments.skip(1) {
                words.push(rt.alloc(), argument.as_str())?;
            }
        }
        Err(error) if error.kind() == ErrorKind::OutOfMemory => return Err(AllocError),
        Err(_) => {}
    }
    Ok(words)
}

fn main(rt: HostRuntime) -> ExitCode {
    let status = match words_of(&rt) {
        Ok(words) => run(
            rt.alloc(),
            &words,
            &mut FileInputs::new(&rt),
            &mut WriterSink::new(io::writer(&rt)),
        ),
        Err(_) => Status::OutOfMemory,
    };
    ExitCode::from(status.number())
}
