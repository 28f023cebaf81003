//! Runs over two files in memory, `text` and `row`, and tables of what they come to.

use gh_base::memory::MemoryInputs;
use gh_base::sink::MemorySink;
use gh_top::run::run;
use gh_top::status::Status;
use gh_top::words::Words;
use std::alloc::{AllocError, Global};

const ROOM: usize = 8_388_608;

// How a run ended, and what it wrote.
#[derive(Drop)]
pub(crate) struct Ended {
    pub(crate) status: Status,
    pub(crate) text: Vec<u8>,
}

// The answer to some words over the contents of `text` and `row`.
pub(crate) fn answer(
    alloc: Global,
    words: &[&str],
    text: &[u8],
    row: &[u8],
) -> Result<Ended, AllocError> {
    let mut all = Words::new(alloc);
    for word in words {
        all.push(alloc, word)?;
    }
    let mut inputs = MemoryInputs::new(alloc, 4096);
    inputs.add(alloc, "text", text)?;
    inputs.add(alloc, "row", row)?;
    let mut out = MemorySink::new(alloc, ROOM, 4096)?;
    let status = run(alloc, &all, &mut inputs, &mut out);
    let text = Vec::from_slice(alloc, out.bytes())?;
    Ok(Ended { status, text })
}

// Whether some words are answered with this status and text.
pub(crate) fn answers(
    alloc: Global,
    words: &[&str],
    text: &[u8],
    row: &[u8],
    status: Status,
    written: &[u8],
) -> Result<bool, AllocError> {
    let found = answer(alloc, words, text, row)?;
    Ok(found.status == status && found.text.as_slice() == written)
}

// Whether a program is answered like this in a mode.
pub(crate) fn reports(
    alloc: Global,
    mode: &str,
    program: &[u8],
    status: Status,
    written: &[u8],
) -> Result<bool, AllocError> {
    answers(alloc, &[mode, "row"], b"", program, status, written)
}

// An answer: the words, what `text` and `row` hold, how the run ends, and what it writes.
#[derive(Clone, Copy)]
pub(crate) struct Case<'a> {
    pub(crate) words: &'a [&'a str],
    pub(crate) text: &'a [u8],
    pub(crate) row: &'a [u8],
    pub(crate) status: Status,
    pub(crate) written: &'a [u8],
}

// The first case with another answer.
pub(crate) fn wrong_case(alloc: Global, cases: &[Case<'_>]) -> Result<Option<usize>, AllocError> {
    for (number, case) in cases.iter().enumerate() {
        if !answers(
            alloc,
            case.words,
            case.text,
            case.row,
            case.status,
            case.written,
        )? {
            return Ok(Some(number));
        }
    }
    Ok(None)
}

// Answers that differ in two places: each row has what comes last in its file, and what stands in the middle of
// what is written.
#[derive(Clone, Copy)]
pub(crate) struct Table<'a> {
    pub(crate) words: &'a [&'a str],
    pub(crate) text: &'a [u8],
    pub(crate) head: &'a [u8],
    pub(crate) status: Status,
    pub(crate) before: &'a [u8],
    pub(crate) after: &'a [u8],
    pub(crate) rows: &'a [(&'a [u8], &'a [u8])],
}

// Whether a row of a table has its answer.
fn is_row(
    alloc: Global,
    table: &Table<'_>,
    last: &[u8],
    middle: &[u8],
) -> Result<bool, AllocError> {
    let file = joined(alloc, table.head, last, b"")?;
    let line = joined(alloc, table.before, middle, table.after)?;
    let (file, line) = (file.as_slice(), line.as_slice());
    answers(alloc, table.words, table.text, file, table.status, line)
}

// The first row of a table with another answer.
fn wrong_row(alloc: Global, table: &Table<'_>) -> Result<Option<usize>, AllocError> {
    for (number, row) in table.rows.iter().enumerate() {
        if !is_row(alloc, table, row.0, row.1)? {
            return Ok(Some(number));
        }
    }
    Ok(None)
}

// The first of some tables that has another answer, and its row.
pub(crate) fn wrong_table(
    alloc: Global,
    tables: &[Table<'_>],
) -> Result<Option<(usize, usize)>, AllocError> {
    for (number, table) in tables.iter().enumerate() {
        if let Some(row) = wrong_row(alloc, table)? {
            return Ok(Some((number, row)));
        }
    }
    Ok(None)
}

// Three texts, one after the other.
pub(crate) fn joined(
    alloc: Global,
    first: &[u8],
    second: &[u8],
    third: &[u8],
) -> Result<Vec<u8>, AllocError> {
    repeated(alloc, first, second, 1, third)
}

// A text of a line that is repeated between two others.
pub(crate) fn repeated(
    alloc: Global,
    first: &[u8],
    line: &[u8],
    times: u16,
    last: &[u8],
) -> Result<Vec<u8>, AllocError> {
    let mut text = Vec::from_slice(alloc, first)?;
    for _ in 0..times {
        text.extend_from_slice(line)?;
    }
    text.extend_from_slice(last)?;
    Ok(text)
}
