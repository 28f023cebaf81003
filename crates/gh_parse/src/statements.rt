//! Statements and blocks.

ghost use Rattle.gh_ast.specs.Grammar.{SpellsStatement};
ghost use Rattle.gh_ast.specs.Plain.{statement_of, block_of};
ghost use Rattle.gh_parse.specs.Views.{tokens_of};
ghost use Rattle.gh_parse.specs.Stops.{EndsHere};
ghost use Rattle.gh_parse.specs.Answers.{IsReadBy, HasKey};
ghost use Rattle.gh_parse.specs.Statements.{SpellsWholeBlock, SpellsOtherwise, SpellsRepeated, repeat_of, SpellsRun};

use crate::cursor::{Parser, paired};
use crate::error::ReadError;
use gh_ast::sign::{Keyword, Sign};
use gh_ast::{Assertion, Block, Stmt};
use gh_base::place::Span;
use std::alloc::Global;

/// What a loop repeats.
#[derive(Debug, Drop)]
pub struct Repeated {
    pub invariant: Assertion,
    pub body: Block,
}

impl<'t> Parser<'t> {
    /// Reads `free` and what follows it.
    pub fn free_statement(&mut self, alloc: Global) -> Result<Stmt, ReadError>
        requires { HasKey Keyword.Free (tokens_of self.old.rest.now) }
        ensures { IsReadBy EndsHere SpellsStatement self.old statement_of result self.new }
    {
        self.expect_key(Keyword::Free)?;
        let at = self.expect_name(alloc)?;
        self.expect_sign(Sign::Semicolon)?;
        Ok(Stmt::Free { at })
    }

    /// Reads `return` and what follows it.
    pub fn return_statement(&mut self, alloc: Global) -> Result<Stmt, ReadError>
        requires { HasKey Keyword.Return (tokens_of self.old.rest.now) }
        ensures { IsReadBy EndsHere SpellsStatement self.old statement_of result self.new }
    {
        let span = self.expect_key(Keyword::Return)?;
        let values = self.values(alloc, Sign::Semicolon)?;
        Ok(Stmt::Return { span, values })
    }

    /// Reads `if` and what follows it. A missing `else` is an empty block that closes where the
    /// taken block does.
    #[cycle(statement)]
    pub fn if_statement(&mut self, alloc: Global) -> Result<Stmt, ReadError>
        requires { HasKey Keyword.If (tokens_of self.old.rest.now) }
        ensures { IsReadBy EndsHere SpellsStatement self.old statement_of result self.new }
    {
        self.expect_key(Keyword::If)?;
        let test = self.enclosed_test(alloc, true)?;
        let (test, taken) = paired(test, self.block(alloc))?;
        let close = taken.close;
        let ((test, taken), otherwise) = paired((test, taken), self.otherwise(alloc, close))?;
        Ok(Stmt::If {
            test,
            taken,
            otherwise,
        })
    }

    // Reads `else` and the block after it. Where the word is missing, the block is empty and closes at the place.
    #[cycle(statement)]
    fn otherwise(&mut self, alloc: Global, close: Span) -> Result<Block, ReadError>
        ensures { IsReadBy EndsHere (SpellsOtherwise close) self.old block_of result self.new }
    {
        if !self.is_key(Keyword::Else) {
            return Ok(Block {
                statements: Vec::new(alloc),
                close,
            });
        }
        self.expect_key(Keyword::Else)?;
        self.block(alloc)
    }

    /// Reads `while` and what follows it.
    #[cycle(statement)]
    pub fn while_statement(&mut self, alloc: Global) -> Result<Stmt, ReadError>
        requires { HasKey Keyword.While (tokens_of self.old.rest.now) }
        ensures { IsReadBy EndsHere SpellsStatement self.old statement_of result self.new }
    {
        let span = self.expect_key(Keyword::While)?;
        let test = self.enclosed_test(alloc, true)?;
        let (test, repeated) = paired(test, self.repeated(alloc))?;
        Ok(Stmt::While {
            span,
            test,
            invariant: repeated.invariant,
            body: repeated.body,
        })
    }

    // Reads what a loop repeats.
    #[cycle(statement)]
    fn repeated(&mut self, alloc: Global) -> Result<Repeated, ReadError>
        ensures { IsReadBy EndsHere SpellsRepeated self.old repeat_of result self.new }
    {
        let invariant = self.clause(alloc, Keyword::Invariant)?;
        let (invariant, body) = paired(invariant, self.block(alloc))?;
        Ok(Repeated { invariant, body })
    }

    /// Reads a statement.
    #[cycle(statement)]
    pub fn statement(&mut self, alloc: Global) -> Result<Stmt, ReadError>
        ensures { IsReadBy EndsHere SpellsStatement self.old statement_of result self.new }
    {
        if self.is_key(Keyword::Free) {
            return self.free_statement(alloc);
        }
        if self.is_key(Keyword::Return) {
            return self.return_statement(alloc);
        }
        if self.is_key(Keyword::If) {
            return self.if_statement(alloc);
        }
        if self.is_key(Keyword::While) {
            return self.while_statement(alloc);
        }
        let name = self.expect_name(alloc)?;
        self.named_statement(alloc, name)
    }

    /// Reads statements up to a brace that closes, and the brace.
    #[cycle(statement)]
    pub fn statements(&mut self, alloc: Global) -> Result<Block, ReadError>
        ensures { IsReadBy EndsHere SpellsRun self.old block_of result self.new }
    {
        let mut statements = Vec::new(alloc);
        'run: while !self.is_sign(Sign::BraceClose) {
            statements.push(self.statement(alloc)?)?;
        }
        let close = self.expect_sign(Sign::BraceClose)?;
        Ok(Block { statements, close })
    }

    /// Reads statements between braces.
    #[cycle(statement)]
    pub fn block(&mut self, alloc: Global) -> Result<Block, ReadError>
        ensures { IsReadBy EndsHere SpellsWholeBlock self.old block_of result self.new }
    {
        self.expect_sign(Sign::BraceOpen)?;
        self.statements(alloc)
    }
}
