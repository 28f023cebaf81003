//! The tokens that are left, and steps over them.

ghost use Rattle.std.specs.Prelude.{◌≡◌, IfNone, IfOk, MatchResult, Ok, Err};
ghost use Rattle.gh_ast.specs.Tokens.{named, key, sign};
ghost use Rattle.gh_parse.specs.Views.{tokens_of};
ghost use Rattle.gh_parse.specs.Answers.{TakesKind, IsSignTaken, IsKeyTaken, IsAhead, IsSignNext, IsKeyNext};
ghost use Rattle.gh_parse.specs.Answers.{next_place};

use crate::error::ReadError;
use crate::token::{Symbol, Token};
use gh_ast::Occ;
use gh_ast::sign::{Keyword, Sign};
use gh_base::name::Name;
use gh_base::place::Span;
use std::alloc::Global;

/// What the next token is.
#[derive(Clone, Copy)]
pub enum LookAhead {
    Name,
    Key(Keyword),
    Sign(Sign),
    End,
}

/// The tokens that are left.
#[derive(Drop)]
pub struct Parser<'t> {
    pub rest: &'t [Token<'t>],
}

/// What was read first, and what was read after it.
pub fn paired<A: Drop, B: Drop>(first: A, second: Result<B, ReadError>) -> Result<(A, B), ReadError>
    ensures second { MatchResult result (λ p. second ≡ Ok p.1) (λ e. second ≡ Err e) }
    ensures first { IfOk result (λ p. p.0 ≡ first) }
{
    match second {
        Ok(value) => Ok((first, value)),
        Err(e) => Err(e),
    }
}

impl<'t> Parser<'t> {
    /// What the next token is.
    pub fn ahead(&self) -> LookAhead
        ensures { IsAhead result (tokens_of self.now.rest.now) }
    {
        match self.rest {
            [] => LookAhead::End,
            [first, ..] => match first.symbol {
                Symbol::Name(_) => LookAhead::Name,
                Symbol::Key(k) => LookAhead::Key(k),
                Symbol::Sign(s) => LookAhead::Sign(s),
            },
        }
    }

    /// The place of the next token, or the end of the text.
    pub fn place(&self, end: Span) -> Span
        ensures { result ≡ next_place end (tokens_of self.now.rest.now) }
    {
        match self.rest {
            [] => end,
            [first, ..] => first.span,
        }
    }

    /// Takes a sign, where it is next.
    pub fn take_sign(&mut self, wanted: Sign) -> Option<Span>
        ensures taken { IsSignTaken wanted self.old result self.new }
        ensures stays { IfNone result (tokens_of self.new.rest.now ≡ tokens_of self.old.rest.now) }
    {
        let [first, rest @ ..] = self.rest else {
            return None;
        };
        let Symbol::Sign(sign) = first.symbol else {
            return None;
        };
        if sign != wanted {
            return None;
        }
        self.rest = rest;
        Some(first.span)
    }

    /// Takes a reserved word, where it is next.
    pub fn take_key(&mut self, wanted: Keyword) -> Option<Span>
        ensures taken { IsKeyTaken wanted self.old result self.new }
        ensures stays { IfNone result (tokens_of self.new.rest.now ≡ tokens_of self.old.rest.now) }
    {
        let [first, rest @ ..] = self.rest else {
            return None;
        };
        let Symbol::Key(word) = first.symbol else {
            return None;
        };
        if word != wanted {
            return None;
        }
        self.rest = rest;
        Some(first.span)
    }

    /// Whether a sign is next.
    pub fn is_sign(&self, wanted: Sign) -> bool
        ensures { IsSignNext wanted self.now result }
    {
        match self.ahead() {
            LookAhead::Sign(s) => s == wanted,
            _ => false,
        }
    }

    /// Whether a reserved word is next.
    pub fn is_key(&self, wanted: Keyword) -> bool
        ensures { IsKeyNext wanted self.now result }
    {
        match self.ahead() {
            LookAhead::Key(k) => k == wanted,
            _ => false,
        }
    }

    /// Takes a sign; an error where it isn't next.
    pub fn expect_sign(&mut self, wanted: Sign) -> Result<Span, ReadError>
        ensures { TakesKind (sign wanted) (tokens_of self.old.rest.now) result (tokens_of self.new.rest.now) }
    {
        match self.take_sign(wanted) {
            Some(span) => Ok(span),
            None => Err(ReadError::Unexpected),
        }
    }

    /// Takes a reserved word; an error where it isn't next.
    pub fn expect_key(&mut self, wanted: Keyword) -> Result<Span, ReadError>
        ensures { TakesKind (key wanted) (tokens_of self.old.rest.now) result (tokens_of self.new.rest.now) }
    {
        match self.take_key(wanted) {
            Some(span) => Ok(span),
            None => Err(ReadError::Unexpected),
        }
    }

    /// Takes a name; an error where none is next.
    pub fn expect_name(&mut self, alloc: Global) -> Result<Occ, ReadError>
        ensures { TakesKind named (tokens_of self.old.rest.now) result (tokens_of self.new.rest.now) }
    {
        match self.rest {
            [first, rest @ ..] => match first.symbol {
                Symbol::Name(word) => {
                    let name = Name::from_word(alloc, word.bytes)?;
                    self.rest = rest;
                    Ok(Occ {
                        name,
                        span: first.span,
                    })
                }
                _ => Err(ReadError::Unexpected),
            },
            [] => Err(ReadError::Unexpected),
        }
    }
}
