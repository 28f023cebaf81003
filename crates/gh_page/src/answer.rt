// What the program `grass` answers over texts in place of files.

ghost use Rattle.std.specs.Prelude.{◌≡◌, IfOk};
ghost use Rattle.gh_page.specs.Answering as told;
ghost use Rattle.gh_page.specs.Answering.{IsAnswerTo};
ghost use Rattle.gh_page.specs.Modes as modes;

use crate::gathered::Gathered;
use crate::reply::Reply;
use crate::texts::Texts;
use gh_top::run::run;
use gh_top::status::Status;
use gh_top::words::Words;
use std::alloc::{AllocError, Global};

const RECHECK: u32 = 5;

const REPLAY: u32 = 6;

// The word of a mode; it is empty where the number is no mode.
fn word_of(mode: u32) -> &'static str
    ensures { result.now ≡ modes.word_of mode }
{
    match mode {
        0 => "check",
        1 => "smallest",
        2 => "paths",
        3 => "log",
        4 => "entail",
        5 => "recheck",
        6 => "replay",
        _ => "",
    }
}

// Whether a mode is about two texts.
fn is_on_two(mode: u32) -> bool
    ensures { result ≡ modes.is_on_two mode }
{
    if mode == RECHECK {
        true
    } else {
        mode == REPLAY
    }
}

// The words of a mode and the names of its texts.
fn words_of(alloc: Global, mode: u32) -> Result<Words, AllocError>
    ensures { IfOk result (λ w. w ≡ modes.words_of mode) }
{
    let mut words = Words::new(alloc);
    words.push(alloc, word_of(mode))?;
    words.push(alloc, "program")?;
    if !is_on_two(mode) {
        return Ok(words);
    }
    words.push(alloc, "second")?;
    Ok(words)
}

// Whether a run ended with an answer.
fn is_answer(status: Status) -> bool
    ensures { result ≡ told.is_answer status }
{
    !matches!(
        status,
        Status::ReadFault | Status::WriteFault | Status::OutOfMemory
    )
}

/// What is answered in a mode. Only want of memory keeps an answer back.
pub(crate) fn answer(
    alloc: Global,
    mode: u32,
    text: &[u8],
    second: &[u8],
) -> Result<Reply, AllocError>
    ensures { IfOk result (IsAnswerTo mode text.now second.now) }
{
    let words = words_of(alloc, mode)?;
    let mut inputs = Texts::new(text, second);
    let mut out = Gathered::new(alloc);
    let status = run(alloc, &words, &mut inputs, &mut out);
    if !is_answer(status) {
        return Err(AllocError);
    }
    Ok(Reply::about(status, out.into_text()))
}
