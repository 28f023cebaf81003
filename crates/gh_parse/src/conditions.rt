//! Tests.

ghost use Rattle.gh_ast.specs.declared.sign.Sign.TheVariants.{ParenOpen, ParenClose, Bang};
ghost use Rattle.gh_ast.specs.Grammar.{SpellsLit, SpellsConj, SpellsCond, NoSign};
ghost use Rattle.gh_ast.specs.Plain.{cond_of};
ghost use Rattle.gh_parse.specs.Views.{tokens_of};
ghost use Rattle.gh_parse.specs.Stops.{EndsHere};
ghost use Rattle.gh_parse.specs.Answers.{IsReadBy, IsBetween, SpellsComparison};

use crate::cursor::Parser;
use crate::error::ReadError;
use gh_ast::Cond;
use gh_ast::sign::Sign;
use std::alloc::Global;

impl<'t> Parser<'t> {
    /// Reads a test: conjunctions with `||` between them. Reads of cells stand in it where
    /// `reads` says so.
    #[cycle(condition)]
    pub fn test(&mut self, alloc: Global, reads: bool) -> Result<Cond, ReadError>
        ensures { IsReadBy EndsHere (SpellsCond reads) self.old cond_of result self.new }
    {
        let first = self.conjunction(alloc, reads)?;
        let Some(_) = self.take_sign(Sign::Or) else {
            return Ok(first);
        };
        let mut members = Vec::new(alloc);
        members.push(first)?;
        'members: loop {
            members.push(self.conjunction(alloc, reads)?)?;
            let Some(_) = self.take_sign(Sign::Or) else {
                return Ok(Cond::Or(members));
            };
        }
    }

    // Reads literals with `&&` between them.
    #[cycle(condition)]
    fn conjunction(&mut self, alloc: Global, reads: bool) -> Result<Cond, ReadError>
        ensures { IsReadBy EndsHere (SpellsConj reads) self.old cond_of result self.new }
    {
        let first = self.literal(alloc, reads)?;
        let Some(_) = self.take_sign(Sign::And) else {
            return Ok(first);
        };
        let mut members = Vec::new(alloc);
        members.push(first)?;
        'members: loop {
            members.push(self.literal(alloc, reads)?)?;
            let Some(_) = self.take_sign(Sign::And) else {
                return Ok(Cond::And(members));
            };
        }
    }

    // Reads a comparison, or a test in brackets that may be denied.
    #[cycle(condition)]
    fn literal(&mut self, alloc: Global, reads: bool) -> Result<Cond, ReadError>
        ensures { IsReadBy EndsHere (SpellsLit reads) self.old cond_of result self.new }
    {
        if self.is_sign(Sign::ParenOpen) {
            return self.enclosed_test(alloc, reads);
        }
        let Some(_) = self.take_sign(Sign::Bang) else {
            return self.equation(alloc, reads);
        };
        let inner = self.enclosed_test(alloc, reads)?;
        Ok(Cond::Not(Box::new(alloc, inner)?))
    }

    /// Reads a test in round brackets.
    #[cycle(condition)]
    pub fn enclosed_test(&mut self, alloc: Global, reads: bool) -> Result<Cond, ReadError>
        ensures { IsReadBy EndsHere (IsBetween ParenOpen ParenClose (SpellsCond reads))
            self.old cond_of result self.new }
    {
        self.expect_sign(Sign::ParenOpen)?;
        let test = self.test(alloc, reads)?;
        self.expect_sign(Sign::ParenClose).and(Ok(test))
    }

    // Reads a comparison of two expressions.
    fn equation(&mut self, alloc: Global, reads: bool) -> Result<Cond, ReadError>
        requires plain { NoSign Bang (tokens_of self.old.rest.now) }
        requires bare { NoSign ParenOpen (tokens_of self.old.rest.now) }
        ensures { IsReadBy EndsHere (SpellsLit reads) self.old cond_of result self.new }
    {
        let left = self.expr(alloc, reads)?;
        let equal = self.comparison_sign()?;
        let right = self.expr(alloc, reads)?;
        Ok(Cond::Compare { left, equal, right })
    }

    /// Reads `==` or `!=`, and says whether it is `==`.
    pub fn comparison_sign(&mut self) -> Result<bool, ReadError>
        ensures { IsReadBy EndsHere SpellsComparison self.old (λ b. b) result self.new }
    {
        if let Some(_) = self.take_sign(Sign::Equal) {
            return Ok(true);
        }
        self.expect_sign(Sign::Unequal)?;
        Ok(false)
    }
}
