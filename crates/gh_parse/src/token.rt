//! Tokens with their places.

ghost use Rattle.gh_base.specs.Names.{IsNameText};

use gh_ast::sign::{Keyword, Sign};
use gh_base::place::Span;
use std::alloc::AllocError;

/// A word of a text that may be a name.
pub struct Word<'t> {
    pub bytes: &'t [u8],
    ghost valid: { Rattle.gh_base.specs.Names.IsNameText bytes.now },
}

impl Copy for Word<'_> {}

impl Clone for Word<'_> {
    fn clone(&self) -> Result<Self, AllocError> {
        Ok(*self)
    }
}

/// What a token is.
#[derive(Clone, Copy)]
pub enum Symbol<'t> {
    Name(Word<'t>),
    Key(Keyword),
    Sign(Sign),
}

impl<'t> Symbol<'t> {
    ghost use Rattle.std.specs.Prelude.{◌≡◌};
    ghost use Rattle.gh_parse.specs.Views.{symbol_text};

    /// How the symbol is written.
    pub fn text(&self) -> &'t [u8]
        ensures { result.now ≡ symbol_text self.now }
    {
        match self {
            Symbol::Name(word) => word.bytes,
            Symbol::Key(key) => key.text(),
            Symbol::Sign(sign) => sign.text(),
        }
    }
}

/// A token with the place of its first byte.
#[derive(Clone, Copy)]
pub struct Token<'t> {
    pub symbol: Symbol<'t>,
    pub span: Span,
}
