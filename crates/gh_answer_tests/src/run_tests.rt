//! Words, the longest text, and files that aren't there.

use crate::answers::{Case, answers, reports, wrong_case};
use gh_texts::{NOP, SECOND};
use gh_top::status::Status;
use std::alloc::{AllocError, Global};

// Words that ask for nothing.
const USAGES: &[&[&str]] = &[
    &[],
    &["check"],
    &["verify", "text"],
    &["check", "text", "row"],
    &["check", "-text"],
    &["check", ""],
    &["log", "text", "row"],
    &["paths", "text", "row"],
    &["recheck", "text"],
    &["replay", "text"],
    &["replay", "text", "row", "row"],
    &["replay", "text", "-row"],
    &["stress"],
    &["stress", "0"],
    &["stress", "07"],
    &["stress", "256"],
    &["stress", "1", "text"],
];

fn wrong_usage(alloc: Global, all: &[&[&str]]) -> Result<Option<usize>, AllocError> {
    for (number, words) in all.iter().enumerate() {
        if !answers(alloc, words, NOP, NOP, Status::Usage, b"refused: usage\n")? {
            return Ok(Some(number));
        }
    }
    Ok(None)
}

#[test]
fn words_that_ask_for_nothing(rt: HostRuntime) -> Result<(), AllocError> {
    assert!(rt; wrong_usage(rt.alloc(), USAGES)? == None);
    Ok(())
}

// The smallest program, with a comment that makes its text this long.
fn padded(alloc: Global, length: usize) -> Result<Vec<u8>, AllocError> {
    let mut text = Vec::from_slice(alloc, NOP)?;
    text.extend_from_slice(b"//")?;
    for _ in NOP.len() + 2..length {
        text.push(b'x')?;
    }
    Ok(text)
}

// Whether the smallest program in a text of this length is answered like this.
fn is_answered(
    alloc: Global,
    length: usize,
    status: Status,
    line: &[u8],
) -> Result<bool, AllocError> {
    let text = padded(alloc, length)?;
    reports(alloc, "check", text.as_slice(), status, line)
}

#[test]
fn texts_at_the_limit(rt: HostRuntime) -> Result<(), AllocError> {
    let alloc = rt.alloc();
    let verified = b"verified: 1 of 1 valid\n";
    assert!(rt; is_answered(alloc, 1_048_576, Status::Verified, verified)?);
    let long = b"refused: TooLong\n";
    assert!(rt; is_answered(alloc, 1_048_577, Status::TextRefused, long)?);
    Ok(())
}

const NO_TEXT: Case<'static> = Case {
    words: &["check", "e"],
    text: NOP,
    row: NOP,
    status: Status::TextRefused,
    written: b"refused: Absent\n",
};

const ABSENT: &[Case<'static>] = &[
    NO_TEXT,
    Case {
        words: &["replay", "text", "e"],
        status: Status::LogRefused,
        written: b"refused: drawing Absent\n",
        ..NO_TEXT
    },
    Case {
        words: &["recheck", "text", "e"],
        status: Status::LogRefused,
        written: b"refused: log Absent\n",
        ..NO_TEXT
    },
    Case {
        words: &["session", "e"],
        status: Status::LogRefused,
        written: b"refused: session Absent\n",
        ..NO_TEXT
    },
    Case {
        words: &["run", "text", "e", "5"],
        text: SECOND,
        status: Status::LogRefused,
        written: b"refused: state Absent\n",
        ..NO_TEXT
    },
];

#[test]
fn files_that_are_not_there(rt: HostRuntime) -> Result<(), AllocError> {
    assert!(rt; wrong_case(rt.alloc(), ABSENT)? == None);
    Ok(())
}
