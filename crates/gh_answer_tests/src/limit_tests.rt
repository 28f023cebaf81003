//! Texts at each limit and one past it, and files that are too long.

use crate::answers::{answer, answers, repeated, reports};
use gh_texts::{DROP, NODE, NOP, SECOND, wide};
use gh_top::status::Status;
use std::alloc::{AllocError, Global};

// Whether a text at a limit is verified with this line, and one past it is refused with that.
fn turns(
    alloc: Global,
    most: &[u8],
    verified: &[u8],
    over: &[u8],
    refused: &[u8],
) -> Result<bool, AllocError> {
    Ok(
        reports(alloc, "check", most, Status::Verified, verified)?
            && reports(alloc, "check", over, Status::TextRefused, refused)?,
    )
}

const ONE: &[u8] = b"verified: 1 of 1 valid\n";

// So many procedures, each with a number in its name.
fn procedures(alloc: Global, count: u16) -> Result<Vec<u8>, AllocError> {
    let mut text = Vec::from_slice(alloc, NODE)?;
    for number in 1..u32::from(count) + 1 {
        let line = format!(in alloc; "procedure p{number}() {{ }}\n")?;
        text.extend_from_slice(line.as_bytes())?;
    }
    Ok(text)
}

// A procedure with so many parameters.
fn parameters(alloc: Global, count: u16) -> Result<Vec<u8>, AllocError> {
    let mut text = Vec::from_slice(alloc, NODE)?;
    text.extend_from_slice(b"procedure p(a1: Node")?;
    for number in 2..u32::from(count) + 1 {
        let more = format!(in alloc; ", a{number}: Node")?;
        text.extend_from_slice(more.as_bytes())?;
    }
    text.extend_from_slice(b") { }\n")?;
    Ok(text)
}

// A text with a count: procedures, a procedure's parameters, or a line that is repeated between two others.
#[derive(Clone, Copy)]
enum Counted {
    Procedures,
    Parameters,
    Lines(&'static [u8], &'static [u8], &'static [u8]),
}

fn text_of(alloc: Global, counted: Counted, count: u16) -> Result<Vec<u8>, AllocError> {
    match counted {
        Counted::Procedures => procedures(alloc, count),
        Counted::Parameters => parameters(alloc, count),
        Counted::Lines(first, line, last) => repeated(alloc, first, line, count, last),
    }
}

// The greatest count with which a text is verified, with its line, and the line of the refusal of one more.
#[derive(Clone, Copy)]
struct Limit {
    counted: Counted,
    most: u16,
    verified: &'static [u8],
    refused: &'static [u8],
}

// So many tests, one after the other.
const TESTS: Counted = Counted::Lines(
    b"struct Node { var next: Node; }\nprocedure many(x: Node)\n{\n",
    b"  if (x == null) { }\n",
    b"}\n",
);

const PATHS: &[u8] = b"refused: Limit paths at 2:11, count 1025\n";

const LIMITS: &[Limit] = &[
    Limit {
        counted: Counted::Procedures,
        most: 256,
        verified: b"verified: 256 of 256 valid\n",
        refused: b"refused: Limit procedures at 258:11, count 257\n",
    },
    Limit {
        counted: Counted::Parameters,
        most: 32,
        verified: ONE,
        refused: b"refused: Limit variables at 2:11, count 33\n",
    },
    // what a procedure requires: the empty heap, and so often once more
    Limit {
        counted: Counted::Lines(
            b"struct Node { var next: Node; }\nprocedure p() requires emp",
            b" &*& emp",
            b" { }\n",
        ),
        most: 31,
        verified: ONE,
        refused: b"refused: Limit atoms at 2:11, count 33\n",
    },
    // what it ensures: the empty heap, and so often in one alternative more
    Limit {
        counted: Counted::Lines(
            b"struct Node { var next: Node; }\nprocedure p() ensures emp",
            b" || emp",
            b" { }\n",
        ),
        most: 31,
        verified: ONE,
        refused: b"refused: Limit atoms at 2:11, count 33\n",
    },
    Limit {
        counted: TESTS,
        most: 10,
        verified: b"verified: 1024 of 1024 valid\n",
        refused: PATHS,
    },
    // so many copies
    Limit {
        counted: Counted::Lines(
            b"struct Node { var next: Node; }\nprocedure p(x: Node)\n{\n  var t: Node;\n",
            b"  t := x;\n",
            b"}\n",
        ),
        most: 256,
        verified: ONE,
        refused: b"refused: Limit steps at 2:11, count 257\n",
    },
];

fn is_limit(alloc: Global, limit: &Limit) -> Result<bool, AllocError> {
    let most = text_of(alloc, limit.counted, limit.most)?;
    let over = text_of(alloc, limit.counted, limit.most.saturating_add(1))?;
    let (most, over) = (most.as_slice(), over.as_slice());
    turns(alloc, most, limit.verified, over, limit.refused)
}

// The first text that turns elsewhere, or with other lines.
fn wrong_limit(alloc: Global, limits: &[Limit]) -> Result<Option<usize>, AllocError> {
    for (number, limit) in limits.iter().enumerate() {
        if !is_limit(alloc, limit)? {
            return Ok(Some(number));
        }
    }
    Ok(None)
}

#[test]
fn counts_of_texts(rt: HostRuntime) -> Result<(), AllocError> {
    assert_eq!(rt; wrong_limit(rt.alloc(), LIMITS)?, None);
    Ok(())
}

// The mode `paths` keeps to the limits too.
fn are_paths_refused(alloc: Global) -> Result<bool, AllocError> {
    let over = text_of(alloc, TESTS, 11)?;
    reports(alloc, "paths", over.as_slice(), Status::TextRefused, PATHS)
}

fn are_terms_limited(alloc: Global) -> Result<bool, AllocError> {
    let most = wide(alloc, 31)?;
    let over = wide(alloc, 32)?;
    let refused = b"refused: Limit terms at 2:11, count 33\n";
    turns(alloc, most.as_slice(), ONE, over.as_slice(), refused)
}

// So many writes.
const WRITES: Counted = Counted::Lines(
    b"struct Node { var next: Node; }\nprocedure p(x: Node)\n  requires acc(x)\n  ensures acc(x)\n{\n",
    b"  x.next := null;\n",
    b"}\n",
);

// Whether the conditions of a text are listed, with this end of the list.
fn lists(alloc: Global, text: &[u8], end: &[u8]) -> Result<bool, AllocError> {
    let found = answer(alloc, &["paths", "row"], b"", text)?;
    Ok(found.status == Status::Listed && found.text.ends_with(end))
}

fn are_versions_limited(alloc: Global) -> Result<bool, AllocError> {
    let most = text_of(alloc, WRITES, 23)?;
    let over = text_of(alloc, WRITES, 24)?;
    let (most, over) = (most.as_slice(), over.as_slice());
    let refused = b"refused: Limit versions at 2:11, count 25\n";
    Ok(
        lists(alloc, most, b"\n24 conditions\n")?
            && reports(alloc, "paths", over, Status::TextRefused, refused)?,
    )
}

#[test]
fn paths_terms_and_versions(rt: HostRuntime) -> Result<(), AllocError> {
    assert!(rt; are_paths_refused(rt.alloc())?);
    assert!(rt; are_terms_limited(rt.alloc())?);
    assert!(rt; are_versions_limited(rt.alloc())?);
    Ok(())
}

// A file of empty lines: the words, what `text` holds, how many lines `row` has, and the line that is written.
type Long = (&'static [&'static str], &'static [u8], usize, &'static [u8]);

const LONG: &[Long] = &[
    (
        &["session", "row"],
        b"",
        4_194_305,
        b"refused: session TooLong\n",
    ),
    (
        &["run", "text", "row", "5"],
        SECOND,
        4_194_304,
        b"refused: state line 1\n",
    ),
    (
        &["run", "text", "row", "5"],
        SECOND,
        4_194_305,
        b"refused: state TooLong\n",
    ),
    (
        &["replay", "text", "row"],
        DROP,
        4_194_304,
        b"refused: drawing\n",
    ),
    (
        &["replay", "text", "row"],
        DROP,
        4_194_305,
        b"refused: drawing TooLong\n",
    ),
    (
        &["recheck", "text", "row"],
        NOP,
        67_108_865,
        b"refused: log TooLong\n",
    ),
];

fn is_refused(alloc: Global, long: Long) -> Result<bool, AllocError> {
    let file = vec![in alloc; b'\n'; long.2]?;
    answers(
        alloc,
        long.0,
        long.1,
        file.as_slice(),
        Status::LogRefused,
        long.3,
    )
}

// The first file with another answer.
fn wrong_file(alloc: Global, files: &[Long]) -> Result<Option<usize>, AllocError> {
    for (number, long) in files.iter().enumerate() {
        if !is_refused(alloc, *long)? {
            return Ok(Some(number));
        }
    }
    Ok(None)
}

#[test]
fn long_files(rt: HostRuntime) -> Result<(), AllocError> {
    assert!(rt; wrong_file(rt.alloc(), LONG)? == None);
    Ok(())
}
