//! Claims.

ghost use Rattle.gh_ast.specs.declared.sign.Sign.TheVariants.{ParenOpen, ParenClose};
ghost use Rattle.gh_ast.specs.QuestionGrammar.{SpellsPart, SpellsDenial, SpellsBoth, SpellsClaim};
ghost use Rattle.gh_ast.specs.Questions.{claim_of};
ghost use Rattle.gh_parse.specs.Answers.{IsReadBy, IsBetween};
ghost use Rattle.gh_parse.specs.Questions.{IsApart};

use crate::cursor::Parser;
use crate::error::ReadError;
use gh_ast::question::Claim;
use gh_ast::sign::Sign;
use std::alloc::Global;

impl<'t> Parser<'t> {
    /// Reads a claim: conjunctions with `||` between them.
    #[cycle(claim)]
    pub fn claim(&mut self, alloc: Global) -> Result<Claim, ReadError>
        ensures { IsReadBy IsApart SpellsClaim self.old claim_of result self.new }
    {
        let first = self.claims_together(alloc)?;
        let Some(_) = self.take_sign(Sign::Or) else {
            return Ok(first);
        };
        let mut members = Vec::new(alloc);
        members.push(first)?;
        'members: loop {
            members.push(self.claims_together(alloc)?)?;
            let Some(_) = self.take_sign(Sign::Or) else {
                return Ok(Claim::Or(members));
            };
        }
    }

    // Reads parts that may be denied, with `&&` between them.
    #[cycle(claim)]
    fn claims_together(&mut self, alloc: Global) -> Result<Claim, ReadError>
        ensures { IsReadBy IsApart SpellsBoth self.old claim_of result self.new }
    {
        let first = self.denial(alloc)?;
        let Some(_) = self.take_sign(Sign::And) else {
            return Ok(first);
        };
        let mut members = Vec::new(alloc);
        members.push(first)?;
        'members: loop {
            members.push(self.denial(alloc)?)?;
            let Some(_) = self.take_sign(Sign::And) else {
                return Ok(Claim::And(members));
            };
        }
    }

    // Reads a part that may be denied.
    #[cycle(claim)]
    fn denial(&mut self, alloc: Global) -> Result<Claim, ReadError>
        ensures { IsReadBy IsApart SpellsDenial self.old claim_of result self.new }
    {
        let Some(_) = self.take_sign(Sign::Bang) else {
            return self.claim_part(alloc);
        };
        let denied = self.claim_part(alloc)?;
        Ok(Claim::Not(Box::new(alloc, denied)?))
    }

    // Reads an assertion in braces, or a claim in brackets.
    #[cycle(claim)]
    fn claim_part(&mut self, alloc: Global) -> Result<Claim, ReadError>
        ensures { IsReadBy IsApart SpellsPart self.old claim_of result self.new }
    {
        if self.is_sign(Sign::ParenOpen) {
            return self.enclosed_claim(alloc);
        }
        let assertion = self.enclosed_assertion(alloc, Sign::BraceOpen, Sign::BraceClose)?;
        Ok(Claim::Leaf(assertion))
    }

    // Reads a claim in brackets.
    #[cycle(claim)]
    fn enclosed_claim(&mut self, alloc: Global) -> Result<Claim, ReadError>
        ensures { IsReadBy IsApart (IsBetween ParenOpen ParenClose SpellsClaim) self.old claim_of result self.new }
    {
        self.expect_sign(Sign::ParenOpen)?;
        let inner = self.claim(alloc)?;
        self.expect_sign(Sign::ParenClose).and(Ok(inner))
    }
}
