//! Operands and expressions.

ghost use Rattle.std.specs.Prelude.{◌≡◌, ◌≢◌, false};
ghost use Rattle.gh_base.specs.declared.place.Span.{Span};
ghost use Rattle.gh_ast.specs.Tokens.{sign};
ghost use Rattle.gh_ast.specs.Grammar.{SpellsOperand, SpellsExpr, SpellsExprs, SpellsValues};
ghost use Rattle.gh_parse.specs.Stops.{EndsHere, goes_on};
ghost use Rattle.gh_parse.specs.Answers.{IsReadBy};

use crate::cursor::Parser;
use crate::error::ReadError;
use gh_ast::sign::{Keyword, Sign};
use gh_ast::{Expr, Operand};
use std::alloc::Global;

impl<'t> Parser<'t> {
    /// Reads a name or `null`.
    #[tactic(auto, using(gh_ast::specs::Grammar::null_operand, gh_ast::specs::Grammar::variable))]
    pub fn operand(&mut self, alloc: Global) -> Result<Operand, ReadError>
        ensures { IsReadBy EndsHere SpellsOperand self.old (λ o. o) result self.new }
    {
        if let Some(span) = self.take_key(Keyword::Null) {
            return Ok(Operand::Null { span });
        }
        Ok(Operand::Var(self.expect_name(alloc)?))
    }

    /// Reads a name or `null`, or `NAME . next` where reads may stand.
    #[tactic(auto, using(gh_ast::specs::Grammar::plain, gh_ast::specs::Grammar::read))]
    pub fn expr(&mut self, alloc: Global, reads: bool) -> Result<Expr, ReadError>
        ensures { IsReadBy EndsHere (SpellsExpr reads) self.old (λ e. e) result self.new }
    {
        let operand = self.operand(alloc)?;
        if !self.is_sign(Sign::Dot) {
            return Ok(Expr::Plain(operand));
        }
        let Operand::Var(at) = operand else {
            return Err(ReadError::Unexpected);
        };
        if !reads {
            return Err(ReadError::Unexpected);
        }
        self.expect_sign(Sign::Dot)?;
        self.expect_key(Keyword::Next)?;
        Ok(Expr::Read(at))
    }

    /// Reads one or more expressions with commas between them, and the sign after them.
    pub fn exprs(&mut self, alloc: Global, close: Sign) -> Result<Vec<Expr>, ReadError>
        requires apart { close ≢ Sign.Comma }
        requires ends { (p : Span) → goes_on (sign close p) ≡ false }
        ensures { IsReadBy EndsHere (SpellsExprs close) self.old (λ es. es.items) result self.new }
    {
        let mut exprs = Vec::new(alloc);
        'members: loop {
            exprs.push(self.expr(alloc, true)?)?;
            let Some(_) = self.take_sign(Sign::Comma) else {
                self.expect_sign(close)?;
                return Ok(exprs);
            };
        }
    }

    /// Reads none or more expressions with commas between them, and the sign after them.
    #[tactic(auto, using(gh_ast::specs::Grammar::no_values, gh_ast::specs::Grammar::some_values))]
    pub fn values(&mut self, alloc: Global, close: Sign) -> Result<Vec<Expr>, ReadError>
        requires apart { close ≢ Sign.Comma }
        requires ends { (p : Span) → goes_on (sign close p) ≡ false }
        ensures { IsReadBy EndsHere (SpellsValues close) self.old (λ es. es.items) result self.new }
    {
        if let Some(_) = self.take_sign(close) {
            return Ok(Vec::new(alloc));
        }
        self.exprs(alloc, close)
    }
}
