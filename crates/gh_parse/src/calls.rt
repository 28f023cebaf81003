//! Statements that begin with a name: assignments and calls.

ghost use Rattle.gh_ast.specs.Plain.{statement_of};
ghost use Rattle.gh_parse.specs.Views.{tokens_of};
ghost use Rattle.gh_parse.specs.Stops.{EndsHere};
ghost use Rattle.gh_parse.specs.Answers.{IsReadBy, HasSign};
ghost use Rattle.gh_parse.specs.Statements.{IsVariableOf, SpellsArguments, SpellsTargetsFrom, SpellsNamed};

use crate::cursor::Parser;
use crate::error::ReadError;
use gh_ast::sign::{Keyword, Sign};
use gh_ast::{Expr, Occ, Operand, Stmt};
use std::alloc::Global;

// The name, where the expression is a variable.
fn variable_of(value: Expr) -> Option<Occ>
    ensures { IsVariableOf value result }
{
    let Expr::Plain(operand) = value else {
        return None;
    };
    let Operand::Var(at) = operand else {
        return None;
    };
    Some(at)
}

impl<'t> Parser<'t> {
    /// Reads values in brackets and the semicolon after them.
    pub fn arguments(&mut self, alloc: Global) -> Result<Vec<Expr>, ReadError>
        ensures { IsReadBy EndsHere SpellsArguments self.old (λ v. v.items) result self.new }
    {
        self.expect_sign(Sign::ParenOpen)?;
        let values = self.values(alloc, Sign::ParenClose)?;
        self.expect_sign(Sign::Semicolon)?;
        Ok(values)
    }

    /// Reads the other targets of a call and `:=` after the first.
    pub fn targets(&mut self, alloc: Global, first: Occ) -> Result<Vec<Occ>, ReadError>
        ensures { IsReadBy EndsHere (SpellsTargetsFrom first) self.old (λ v. v.items) result self.new }
    {
        let mut targets = Vec::new(alloc);
        let mut name = first;
        'names: loop {
            targets.push(name)?;
            let Some(_) = self.take_sign(Sign::Comma) else {
                self.expect_sign(Sign::Assign)?;
                return Ok(targets);
            };
            name = self.expect_name(alloc)?;
        }
    }

    /// Reads a call from the comma after its first target on.
    pub fn call_to_many(&mut self, alloc: Global, first: Occ) -> Result<Stmt, ReadError>
        requires { HasSign Sign.Comma (tokens_of self.old.rest.now) }
        ensures { IsReadBy EndsHere (SpellsNamed first) self.old statement_of result self.new }
    {
        let targets = self.targets(alloc, first)?;
        let callee = self.expect_name(alloc)?;
        let arguments = self.arguments(alloc)?;
        Ok(Stmt::Call {
            targets,
            callee,
            arguments,
        })
    }

    /// Reads a call without targets from its bracket on.
    pub fn bare_call(&mut self, alloc: Global, callee: Occ) -> Result<Stmt, ReadError>
        requires { HasSign Sign.ParenOpen (tokens_of self.old.rest.now) }
        ensures { IsReadBy EndsHere (SpellsNamed callee) self.old statement_of result self.new }
    {
        let arguments = self.arguments(alloc)?;
        Ok(Stmt::Call {
            targets: Vec::new(alloc),
            callee,
            arguments,
        })
    }

    /// Reads a write from the dot after its name on.
    pub fn write(&mut self, alloc: Global, at: Occ) -> Result<Stmt, ReadError>
        requires { HasSign Sign.Dot (tokens_of self.old.rest.now) }
        ensures { IsReadBy EndsHere (SpellsNamed at) self.old statement_of result self.new }
    {
        self.expect_sign(Sign::Dot)?;
        self.expect_key(Keyword::Next)?;
        self.expect_sign(Sign::Assign)?;
        let value = self.expr(alloc, true)?;
        self.expect_sign(Sign::Semicolon)
            .and(Ok(Stmt::Write { at, value }))
    }

    /// Reads an assignment, an allocation or a call to one target, from `:=` on.
    pub fn assignment(&mut self, alloc: Global, target: Occ) -> Result<Stmt, ReadError>
        requires { HasSign Sign.Assign (tokens_of self.old.rest.now) }
        ensures { IsReadBy EndsHere (SpellsNamed target) self.old statement_of result self.new }
    {
        self.expect_sign(Sign::Assign)?;
        if self.is_key(Keyword::New) {
            self.expect_key(Keyword::New)?;
            self.expect_key(Keyword::Node)?;
            self.expect_sign(Sign::Semicolon)?;
            return Ok(Stmt::New { target });
        }
        let value = self.expr(alloc, true)?;
        if !self.is_sign(Sign::ParenOpen) {
            return self
                .expect_sign(Sign::Semicolon)
                .and(Ok(Stmt::Set { target, value }));
        }
        let Some(callee) = variable_of(value) else {
            return Err(ReadError::Unexpected);
        };
        let arguments = self.arguments(alloc)?;
        let mut targets = Vec::new(alloc);
        targets.push(target)?;
        Ok(Stmt::Call {
            targets,
            callee,
            arguments,
        })
    }

    /// Reads a statement from the token after its first name on.
    pub fn named_statement(&mut self, alloc: Global, name: Occ) -> Result<Stmt, ReadError>
        ensures { IsReadBy EndsHere (SpellsNamed name) self.old statement_of result self.new }
    {
        if self.is_sign(Sign::Assign) {
            return self.assignment(alloc, name);
        }
        if self.is_sign(Sign::Dot) {
            return self.write(alloc, name);
        }
        if self.is_sign(Sign::ParenOpen) {
            return self.bare_call(alloc, name);
        }
        if self.is_sign(Sign::Comma) {
            return self.call_to_many(alloc, name);
        }
        Err(ReadError::Unexpected)
    }
}
