//! Tests of session files.

use gh_base::text::Text;
use gh_session::edits::whole;
use gh_session::error::SessionError;
use gh_session::reading::read_session;
use std::alloc::{AllocError, Global};

const THREE: &[u8] = b"struct Node { var next: Node; }
%% nop
procedure nop()
{ }
%% two
procedure two()
{ }
%% nop
procedure nop()
  ensures emp
{ }
";

const SECOND: &[u8] = b"struct Node { var next: Node; }
procedure nop()
{ }
procedure two()
{ }
";

const THIRD: &[u8] = b"struct Node { var next: Node; }
procedure nop()
  ensures emp
{ }
procedure two()
{ }
";

const STRANGE: &[u8] = b"struct Node { var next: Node; }
%% nop
procedure nop()
{ }
%% two
@
%% nop
procedure nop()
  ensures emp
{ }
";

const BAD: &[u8] = b"struct Node { var next: Node; }
% nop
procedure nop()
{ }
";

// The text after the first edits of a session.
fn after(alloc: Global, session: &[u8], upto: u32) -> Result<Text, AllocError> {
    if session.len() > 4_194_304 {
        return Ok(Text::new(alloc));
    }
    match read_session(alloc, session) {
        Ok(edits) => {
            if upto as usize > edits.edits.as_slice().len() {
                return Ok(Text::new(alloc));
            }
            whole(alloc, &edits, upto)
        }
        Err(_) => Ok(Text::new(alloc)),
    }
}

// Where a text first has a byte.
fn place_of(text: &Text, byte: u8) -> Option<usize> {
    text.bytes().iter().position(|b| *b == byte)
}

// The line of the refusal, and whether it is of too many separators.
fn refusal(alloc: Global, session: &[u8]) -> Result<Option<(u32, bool)>, AllocError> {
    if session.len() > 4_194_304 {
        return Ok(None);
    }
    match read_session(alloc, session) {
        Ok(_) => Ok(None),
        Err(SessionError::Line { line }) => Ok(Some((line, false))),
        Err(SessionError::TooMany { line }) => Ok(Some((line, true))),
        Err(SessionError::OutOfMemory) => Err(AllocError),
    }
}

#[test]
fn pieces_that_stand(rt: HostRuntime) -> Result<(), AllocError> {
    let alloc = rt.alloc();
    assert!(rt; after(alloc, THREE, 2)?.bytes() == SECOND);
    assert!(rt; after(alloc, THREE, 3)?.bytes() == THIRD);
    assert!(rt; place_of(&after(alloc, STRANGE, 2)?, b'@') == Some(52));
    assert!(rt; place_of(&after(alloc, STRANGE, 3)?, b'@') == Some(66));
    Ok(())
}

// So many separators, one a line, the last without its line feed.
fn separators(alloc: Global, count: u32) -> Result<Text, AllocError> {
    let mut text = Text::new(alloc);
    for _ in 0..count {
        text.push(b"%+ a\n")?;
    }
    text.push(b"%% a")?;
    Ok(text)
}

#[test]
fn refused_sessions(rt: HostRuntime) -> Result<(), AllocError> {
    let alloc = rt.alloc();
    assert!(rt; refusal(alloc, THREE)? == None);
    assert!(rt; refusal(alloc, BAD)? == Some((2, false)));
    assert!(rt; refusal(alloc, separators(alloc, 255)?.bytes())? == None);
    assert!(rt; refusal(alloc, separators(alloc, 256)?.bytes())? == Some((257, true)));
    Ok(())
}
