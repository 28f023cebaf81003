//! The pieces of a session file, and the text that they make.

ghost use Rattle.std.specs.Prelude.{◌≡◌, ◌≤◌, length, map, position, take, IfOk};
ghost use Rattle.std.specs.Str.{bytes_eq};
ghost use Rattle.gh_session.specs.Pieces.{value_of, placed, standing, whole};

use gh_base::name::Name;
use gh_base::text::Text;
use std::alloc::{AllocError, Global};

/// A piece of a session, and whether an answer is asked for after it.
#[derive(Debug, Drop)]
pub struct Edit {
    pub name: Name,
    pub asks: bool,
    pub text: Text,
}

/// The text before the first piece, and the pieces in their order.
#[derive(Debug, Drop)]
pub struct Edits {
    pub head: Text,
    pub edits: Vec<Edit>,
}

// Where the piece of a name stands.
fn place_of(pieces: &[&Edit], name: &[u8]) -> Option<usize>
    ensures { result ≡ position (λ q. bytes_eq q.now.name name.now) pieces.now }
{
    pieces.iter().position(|piece| piece.name.bytes() == name)
}

// Puts a piece in the place of the one of its name, or last.
fn place<'e>(pieces: &mut Vec<&'e Edit>, edit: &'e Edit) -> Result<(), AllocError>
    ensures { IfOk result (λ _. map value_of pieces.new.items ≡ placed (map value_of pieces.old.items) edit.now) }
{
    match place_of(pieces.as_slice(), edit.name.bytes()) {
        Some(at) => pieces[at] = edit,
        None => pieces.push(edit)?,
    }
    Ok(())
}

// The pieces that stand after some edits.
fn standing(alloc: Global, edits: &[Edit]) -> Result<Vec<&Edit>, AllocError>
    ensures { IfOk result (λ v. map value_of v.items ≡ standing edits.now) }
{
    let mut pieces = Vec::new(alloc);
    for edit in edits {
        place(&mut pieces, edit)?;
    }
    Ok(pieces)
}

/// The text after the first edits: the head, and the pieces that stand then.
pub fn whole(alloc: Global, edits: &Edits, upto: u32) -> Result<Text, AllocError>
    requires { upto ≤ length edits.now.edits.items }
    ensures { IfOk result (λ t. t ≡ whole edits.now.head (take upto edits.now.edits.items)) }
{
    let first = &edits.edits.as_slice()[..upto as usize];
    let pieces = standing(alloc, first)?;
    let mut text = Text::new(alloc);
    text.push(edits.head.bytes())?;
    for piece in pieces.as_slice() {
        text.push(piece.text.bytes())?;
    }
    Ok(text)
}
