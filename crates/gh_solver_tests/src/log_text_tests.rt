//! The texts of logs, both ways.

ghost use Rattle.std.specs.Prelude.{◌≡◌, All, IfOk};
ghost use Rattle.gh_log.specs.Spelled.{IsOfVersion, AreOfVersion, lines_of};

use gh_log::error::LogError;
use gh_log::lines::{Lines, Log, LogLine, Section};
use gh_log::reading::read_log;
use gh_log::writing::write_log;
use std::alloc::Global;

const LOG: &[u8] = b"grass log 1\ncondition 1\ng 0\ng 15\ng 16\ng 19\ng 23\ng 24\nl\n";

// Lines of each kind, with the greatest numbers.
const ALL: &[u8] =
    b"grass log 1\ncondition 1\na 1 0 1\na 255 255 255 1 2 3\ne E.0.0 -E.0.255 B.255.1.2.255\nl -H.1.0.255 A.255.255 -D.4294967295 D.0\nl\ncondition 2\ncondition 3\ng 4294967295\n";

// The same with hints, and deletions.
const HINTED: &[u8] =
    b"grass log 2\ncondition 1\na 255 255 255 1 2 3\ne E.0.0\nl E.0.255 -D.4294967295 ; 2 1\nl ; 1\nl ;\nd 1 2\nd\nd 0 4294967295\ncondition 2\nl A.0.1 ; 4294967295 0\n";

const GROUND: &[u8] = b"grass log 1\ncondition 1\ng 3\ng 10\n";

// Whether the text is read and written back, and how many sections it has.
fn reads_back(alloc: Global, text: &[u8], sections: usize) -> Result<bool, LogError> {
    if text.len() > 1000 {
        return Ok(false);
    }
    let log = read_log(alloc, text)?;
    let written = write_log(alloc, &log)?;
    Ok(written.bytes() == text && log.sections.len() == sections)
}

// The line of the first fault, and 0 where there is none.
fn first_outside(alloc: Global, text: &[u8]) -> u32 {
    if text.len() > 1000 {
        return 0;
    }
    match read_log(alloc, text) {
        Err(LogError::Line { line }) => line,
        _ => 0,
    }
}

fn ground(alloc: Global, numbers: &[u32]) -> Result<Lines, LogError>
    ensures { IfOk result (λ lines. All (IsOfVersion 1) lines) }
{
    let mut lines = Lines::new(alloc);
    for number in numbers {
        lines.push(LogLine::Clause { number: *number })?;
    }
    Ok(lines)
}

// The log of the ground clauses with these numbers, whose section claims to begin at line 7.
fn log_of(alloc: Global, numbers: &[u32]) -> Result<Log, LogError>
    ensures version { IfOk result (λ log. log.version ≡ 1) }
    ensures lines { IfOk result (λ log. AreOfVersion 1 (lines_of log.sections.items)) }
{
    let mut sections = Vec::new(alloc);
    let lines = ground(alloc, numbers)?;
    sections.push(Section { first: 7, lines })?;
    Ok(Log {
        version: 1,
        sections,
    })
}

// Texts, and how many sections they have.
const TEXTS: &[(&[u8], usize)] = &[
    (LOG, 1),
    (ALL, 3),
    (b"grass log 1\n", 0),
    (HINTED, 2),
    (b"grass log 2\n", 0),
];

#[test]
fn read_and_written(rt: HostRuntime) -> Result<(), LogError> {
    for (text, sections) in TEXTS {
        assert!(rt; reads_back(rt.alloc(), text, *sections)?);
    }
    Ok(())
}

// Whether the log of two ground clauses is written like this.
fn is_written(alloc: Global, text: &[u8]) -> Result<bool, LogError> {
    let log = log_of(alloc, &[3, 10])?;
    let written = write_log(alloc, &log)?;
    Ok(written.bytes() == text)
}

#[test]
fn places_are_not_written(rt: HostRuntime) -> Result<(), LogError> {
    assert!(rt; is_written(rt.alloc(), GROUND)?);
    Ok(())
}

// Whether the sections begin at these lines and have so many.
fn stand(alloc: Global, text: &[u8], places: &[(u32, usize)]) -> Result<bool, LogError> {
    if text.len() > 1000 {
        return Ok(false);
    }
    let log = read_log(alloc, text)?;
    if log.sections.len() != places.len() {
        return Ok(false);
    }
    for (section, (first, lines)) in log.sections.iter().zip(places.iter()) {
        if section.first != *first || section.lines.len() != *lines {
            return Ok(false);
        }
    }
    Ok(true)
}

#[test]
fn places_of_sections(rt: HostRuntime) -> Result<(), LogError> {
    assert!(rt; stand(rt.alloc(), ALL, &[(3, 5), (9, 0), (10, 1)])?);
    Ok(())
}

// A text, and the line of its first fault.
type Outside = (&'static [u8], u32);

// The first text with another line.
fn wrong_text(alloc: Global, rows: &[Outside]) -> Option<usize> {
    for (number, (text, line)) in rows.iter().enumerate() {
        if first_outside(alloc, text) != *line {
            return Some(number);
        }
    }
    None
}

const OUTSIDE: &[Outside] = &[
    (b"", 1),
    (b"grass log 1", 1),
    (b"grass log 1\ng 0\n", 2),
    (b"grass log 1\n\n", 2),
    (b"grass log 1\ncondition 2\ng 0\n", 2),
    (b"grass log 1\ncondition 01\n", 2),
    (b"grass log 1\ncondition 1", 2),
    (b"grass log 1\ncondition 1 \n", 2),
    (b"grass log 1\ncondition 1\ng 00\n", 3),
    (b"grass log 1\ncondition 1\ng 4294967296\n", 3),
    (b"grass log 1\ncondition 1\ng 10000000000\n", 3),
    (b"grass log 1\ncondition 1\ng  0\n", 3),
    (b"grass log 1\ncondition 1\ng 0 \n", 3),
    (b"grass log 1\ncondition 1\ng -1\n", 3),
    (b"grass log 1\ncondition 1\ng\n", 3),
    (b"grass log 1\ncondition 1\ng 0\nl", 4),
    (b"grass log 1\ncondition 1\ng 0\nl \n", 4),
    (b"grass log 1\ncondition 1\nl E.1.0\n", 3),
    (b"grass log 1\ncondition 1\nl E.0.256\n", 3),
    (b"grass log 1\ncondition 1\nl E.0.1.2\n", 3),
    (b"grass log 1\ncondition 1\nl --E.0.1\n", 3),
    (b"grass log 1\ncondition 1\nl A.0.1  A.0.1\n", 3),
    (b"grass log 1\ncondition 1\nl B.256.0.1.2\n", 3),
    (b"grass log 1\ncondition 1\nl B.0.1.2\n", 3),
    (b"grass log 1\ncondition 1\nl H.0.1\n", 3),
    (b"grass log 1\ncondition 1\nl A.0\n", 3),
    (b"grass log 1\ncondition 1\nl D.4294967296\n", 3),
    (b"grass log 1\ncondition 1\nl C.0\n", 3),
    (b"grass log 1\ncondition 1\nx\n", 3),
    (b"grass log 1\ncondition 1\na 1 0\n", 3),
    (b"grass log 1\ncondition 1\na 1 0 1 2 3 4 5\n", 3),
    (b"grass log 1\ncondition 1\na 256 0 1\n", 3),
    (b"grass log 1\ncondition 1\na 1 0 01\n", 3),
    (b"grass log 1\ncondition 1\nl\ncondition 1\n", 4),
    (b"grass log 1\ncondition 1\nl\r\n", 3),
];

#[test]
fn outside_the_grammar(rt: HostRuntime) {
    assert!(rt; wrong_text(rt.alloc(), OUTSIDE) == None);
}

const HINTED_OUTSIDE: &[Outside] = &[
    (b"grass log 0\n", 1),
    (b"grass log 3\n", 1),
    (b"grass log 02\n", 1),
    (b"grass log 2 \n", 1),
    (b"grass log 2", 1),
    (b"grass log 1\ncondition 1\nd 1\n", 3),
    (b"grass log 1\ncondition 1\nd\n", 3),
    (b"grass log 1\ncondition 1\nl ;\n", 3),
    (b"grass log 1\ncondition 1\nl ; 1\n", 3),
    (b"grass log 2\ncondition 1\nl\n", 3),
    (b"grass log 2\ncondition 1\nl E.0.0\n", 3),
    (b"grass log 2\ncondition 1\nl;\n", 3),
    (b"grass log 2\ncondition 1\nl  ;\n", 3),
    (b"grass log 2\ncondition 1\nl ;1\n", 3),
    (b"grass log 2\ncondition 1\nl E.0.0 ;01\n", 3),
    (b"grass log 2\ncondition 1\nl E.0.0 ; 01\n", 3),
    (b"grass log 2\ncondition 1\nl ; 4294967296\n", 3),
    (b"grass log 2\ncondition 1\nl ; 1 E.0.0\n", 3),
    (b"grass log 2\ncondition 1\nl ; ; 1\n", 3),
    (b"grass log 2\ncondition 1\ng 0\nd 4294967296\n", 4),
    (b"grass log 2\ncondition 1\nd 1 \n", 3),
    (b"grass log 2\ncondition 1\nd 1\nd 2", 4),
];

#[test]
fn outside_the_second_version(rt: HostRuntime) {
    assert!(rt; wrong_text(rt.alloc(), HINTED_OUTSIDE) == None);
}
