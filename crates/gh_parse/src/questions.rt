//! Whole questions.

ghost use Rattle.gh_ast.specs.QuestionGrammar.{SpellsVariables, SpellsQuestion};
ghost use Rattle.gh_ast.specs.Questions.{claim_of, question_of};
ghost use Rattle.gh_parse.specs.Stops.{IsAny, IsEnd};
ghost use Rattle.gh_parse.specs.Answers.{IsReadBy};
ghost use Rattle.gh_parse.specs.Procedures.{SpellsToEnd};
ghost use Rattle.gh_parse.specs.Questions.{SpellsWhole, SpellsClaims, claims_of};
ghost use Rattle.gh_ast.specs.QuestionGrammar.{SpellsClaim};

use crate::cursor::{Parser, paired};
use crate::error::ReadError;
use gh_ast::Occ;
use gh_ast::question::{Claim, Question};
use gh_ast::sign::Keyword;
use std::alloc::Global;

/// The claims of a question.
#[derive(Debug, Drop)]
pub struct Claims {
    pub left: Claim,
    pub right: Claim,
}

impl<'t> Parser<'t> {
    /// Reads a whole question.
    pub fn question(&mut self, alloc: Global) -> Result<Question, ReadError>
        ensures { IsReadBy IsEnd (SpellsToEnd SpellsQuestion) self.old question_of result self.new }
    {
        let variables = self.variables(alloc)?;
        let span = self.expect_key(Keyword::Requires)?;
        let claims = self.claims(alloc)?;
        Ok(Question {
            variables,
            span,
            left: claims.left,
            right: claims.right,
        })
    }

    // Reads the variables before the word `requires`, which may be missing.
    fn variables(&mut self, alloc: Global) -> Result<Vec<Occ>, ReadError>
        ensures { IsReadBy IsAny SpellsVariables self.old (λ v. v.items) result self.new }
    {
        let mut variables = Vec::new(alloc);
        if self.is_key(Keyword::Requires) {
            return Ok(variables);
        }
        self.expect_key(Keyword::Var)?;
        self.declaration(alloc, &mut variables)?;
        Ok(variables)
    }

    // Reads two claims with `ensures` between them, after which no token is left.
    fn claims(&mut self, alloc: Global) -> Result<Claims, ReadError>
        ensures { IsReadBy IsEnd SpellsClaims self.old claims_of result self.new }
    {
        let claim = self.claim(alloc)?;
        let left = self.expect_key(Keyword::Ensures).and(Ok(claim))?;
        let (left, right) = paired(left, self.last_claim(alloc))?;
        Ok(Claims { left, right })
    }

    // Reads a claim after which no token is left.
    fn last_claim(&mut self, alloc: Global) -> Result<Claim, ReadError>
        ensures { IsReadBy IsEnd (SpellsWhole SpellsClaim) self.old claim_of result self.new }
    {
        let claim = self.claim(alloc)?;
        self.expect_end().and(Ok(claim))
    }
}
