//! Procedures.

ghost use Rattle.gh_ast.specs.Grammar.{SpellsOpenBody, SpellsParams, SpellsHeader, SpellsResults, SpellsProcedure};
ghost use Rattle.gh_ast.specs.Plain.{body_of, procedure_of};
ghost use Rattle.gh_parse.specs.Stops.{EndsHere};
ghost use Rattle.gh_parse.specs.Answers.{IsReadBy};
ghost use Rattle.gh_parse.specs.Procedures.{AddsLocals, SpellsHeading, heading_of, SpellsEnded, ended_of};

use crate::cursor::{Parser, paired};
use crate::error::ReadError;
use gh_ast::sign::{Keyword, Sign};
use gh_ast::{Body, Occ, Procedure};
use gh_base::place::Span;
use std::alloc::Global;

/// A body, or none, and the place of the last brace or of the semicolon in its place.
#[derive(Debug, Drop)]
pub struct Ending {
    pub body: Option<Body>,
    pub close: Span,
}

/// What stands before the contracts of a procedure.
#[derive(Debug, Drop)]
pub struct Heading {
    pub name: Occ,
    pub parameters: Vec<Occ>,
    pub results: Vec<Occ>,
}

impl<'t> Parser<'t> {
    /// Reads a declaration from its first name on, and puts its names after the locals.
    pub fn declaration(&mut self, alloc: Global, locals: &mut Vec<Occ>) -> Result<(), ReadError>
        ensures { IsReadBy EndsHere (AddsLocals locals.old.items) self.old (λ _. locals.new.items) result self.new }
    {
        'names: loop {
            locals.push(self.expect_name(alloc)?)?;
            if !self.is_sign(Sign::Comma) {
                self.expect_sign(Sign::Colon)?;
                self.expect_key(Keyword::Node)?;
                self.expect_sign(Sign::Semicolon)?;
                return Ok(());
            }
            self.expect_sign(Sign::Comma)?;
        }
    }

    /// Reads declarations, statements and the brace after them.
    pub fn inside(&mut self, alloc: Global) -> Result<Body, ReadError>
        ensures { IsReadBy EndsHere SpellsOpenBody self.old body_of result self.new }
    {
        let mut locals = Vec::new(alloc);
        'declarations: while self.is_key(Keyword::Var) {
            self.expect_key(Keyword::Var)?;
            self.declaration(alloc, &mut locals)?;
        }
        let block = self.statements(alloc)?;
        Ok(Body { locals, block })
    }

    /// Reads one or more parameters with commas between them, and the bracket after them.
    pub fn parameters(&mut self, alloc: Global) -> Result<Vec<Occ>, ReadError>
        ensures { IsReadBy EndsHere SpellsParams self.old (λ v. v.items) result self.new }
    {
        let mut names = Vec::new(alloc);
        'names: loop {
            names.push(self.expect_name(alloc)?)?;
            self.expect_sign(Sign::Colon)?;
            self.expect_key(Keyword::Node)?;
            if !self.is_sign(Sign::Comma) {
                self.expect_sign(Sign::ParenClose)?;
                return Ok(names);
            }
            self.expect_sign(Sign::Comma)?;
        }
    }

    /// Reads none or more parameters, and the bracket after them.
    pub fn header(&mut self, alloc: Global) -> Result<Vec<Occ>, ReadError>
        ensures { IsReadBy EndsHere SpellsHeader self.old (λ v. v.items) result self.new }
    {
        if !self.is_sign(Sign::ParenClose) {
            return self.parameters(alloc);
        }
        self.expect_sign(Sign::ParenClose)?;
        Ok(Vec::new(alloc))
    }

    /// Reads the results of a procedure, which may be missing.
    pub fn results(&mut self, alloc: Global) -> Result<Vec<Occ>, ReadError>
        ensures { IsReadBy EndsHere SpellsResults self.old (λ v. v.items) result self.new }
    {
        if !self.is_key(Keyword::Returns) {
            return Ok(Vec::new(alloc));
        }
        self.expect_key(Keyword::Returns)?;
        self.expect_sign(Sign::ParenOpen)?;
        self.header(alloc)
    }

    // Reads a procedure up to its results.
    fn heading(&mut self, alloc: Global) -> Result<Heading, ReadError>
        ensures { IsReadBy EndsHere SpellsHeading self.old heading_of result self.new }
    {
        self.expect_key(Keyword::Procedure)?;
        let name = self.expect_name(alloc)?;
        self.expect_sign(Sign::ParenOpen)?;
        let parameters = self.header(alloc)?;
        let results = self.results(alloc)?;
        Ok(Heading {
            name,
            parameters,
            results,
        })
    }

    /// Reads a body, or a semicolon in its place.
    pub fn ending(&mut self, alloc: Global) -> Result<Ending, ReadError>
        ensures { IsReadBy EndsHere SpellsEnded self.old ended_of result self.new }
    {
        if self.is_sign(Sign::Semicolon) {
            let close = self.expect_sign(Sign::Semicolon)?;
            return Ok(Ending { body: None, close });
        }
        self.expect_sign(Sign::BraceOpen)?;
        let body = self.inside(alloc)?;
        let close = body.block.close;
        Ok(Ending {
            body: Some(body),
            close,
        })
    }

    /// Reads a procedure. Missing contracts are `emp`.
    pub fn procedure(&mut self, alloc: Global) -> Result<Procedure, ReadError>
        ensures { IsReadBy EndsHere SpellsProcedure self.old procedure_of result self.new }
    {
        let heading = self.heading(alloc)?;
        let (heading, needs) = paired(heading, self.clause(alloc, Keyword::Requires))?;
        let ((heading, needs), gives) = paired((heading, needs), self.ensured(alloc))?;
        let ((heading, needs, gives), ending) = paired(
            (heading, needs, gives),
            self.ending(alloc),
        )?;
        Ok(Procedure {
            name: heading.name,
            parameters: heading.parameters,
            results: heading.results,
            needs,
            gives,
            body: ending.body,
            close: ending.close,
        })
    }
}
