//! The separators of a session file.

ghost use Rattle.std.specs.Prelude.{◌≡◌, ◌≤◌, length, drop, IfOk, IfSome, IfNone, Bool};
ghost use Rattle.gh_ast.specs.Programs.{Name};
ghost use Rattle.gh_session.specs.Lines.{separator, IsSeparator};
ghost use Rattle.gh_session.specs.Parts.{IsBare};

use gh_base::name::Name;
use std::alloc::{AllocError, Global};

/// What a separator says.
#[derive(Debug, Drop)]
pub struct Mark {
    pub name: Name,
    pub asks: bool,
}

// The line without the line feed that may stand at its end.
fn bare(line: &[u8]) -> &[u8]
    ensures { IsBare line.now result.now }
{
    match line.split_last() {
        Some((last, front)) => { if *last == b'\n' { front } else { line } }
        None => line,
    }
}

// Whether an answer is asked for, where the line begins as a separator does.
fn asked(line: &[u8]) -> Option<bool>
    ensures some { IfSome result (λ a. line.now ≡ separator a (drop 3 line.now)) }
    ensures long { IfSome result (λ _. 3 ≤ length line.now) }
    ensures none { IfNone result ((a : Bool) (n : Name) → line.now ≡ separator a n → ⊥) }
{
    if line.len() < 3 {
        return None;
    }
    if line[0] != b'%' {
        return None;
    }
    if line[2] != b' ' {
        return None;
    }
    if line[1] == b'%' {
        return Some(true);
    }
    if line[1] == b'+' {
        return Some(false);
    }
    None
}

/// What a line says, if it is a separator.
pub fn mark_of(alloc: Global, line: &[u8]) -> Result<Option<Mark>, AllocError>
    ensures some { IfOk result (λ o. IfSome o (λ s. IsSeparator line.now s.asks s.name)) }
    ensures none { IfOk result (λ o. IfNone o ((asks : Bool) (n : Name) → IsSeparator line.now asks n → ⊥)) }
{
    let bare = bare(line);
    let Some(asks) = asked(bare) else {
        return Ok(None);
    };
    let Some(name) = Name::from_bytes(alloc, &bare[3..])? else {
        return Ok(None);
    };
    Ok(Some(Mark { name, asks }))
}
