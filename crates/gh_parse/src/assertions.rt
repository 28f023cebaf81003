//! Assertions.

ghost use Rattle.std.specs.Prelude.{◌≡◌, ◌<◌, false, IfOk, length, map};
ghost use Rattle.gh_base.specs.declared.place.Span.{Span};
ghost use Rattle.gh_ast.specs.Tokens.{sign};
ghost use Rattle.gh_ast.specs.Grammar.{SpellsItem, SpellsAssertion, SpellsAlternatives, SpellsClause, SpellsEnsures};
ghost use Rattle.gh_ast.specs.Plain.{assertion_of};
ghost use Rattle.gh_parse.specs.Views.{tokens_of};
ghost use Rattle.gh_parse.specs.Stops.{EndsHere, IsAny, goes_on};
ghost use Rattle.gh_parse.specs.Answers.{IsReadBy, IsBetween, IsAhead, HasKey};
ghost use Rattle.gh_parse.specs.Assertions.{SpellsBraced};

use crate::cursor::{LookAhead, Parser, paired};
use crate::error::ReadError;
use gh_ast::sign::{Keyword, Sign};
use gh_ast::{Assertion, Operand};
use std::alloc::Global;

impl<'t> Parser<'t> {
    /// Reads an assertion after its word. One that is missing is `emp`.
    pub fn clause(&mut self, alloc: Global, word: Keyword) -> Result<Assertion, ReadError>
        ensures { IsReadBy EndsHere (SpellsClause word) self.old assertion_of result self.new }
    {
        let Some(_) = self.take_key(word) else {
            return Ok(Assertion::Emp);
        };
        self.assertion(alloc)
    }

    /// Reads what comes after `ensures`, if the word is there: alternatives. Missing ones are `emp` alone.
    pub fn ensured(&mut self, alloc: Global) -> Result<Vec<Assertion>, ReadError>
        ensures read { IsReadBy EndsHere SpellsEnsures self.old (λ fs. map assertion_of fs.items) result self.new }
        ensures some { IfOk result (λ fs. 0 < length fs.items) }
    {
        let Some(_) = self.take_key(Keyword::Ensures) else {
            let mut missing = Vec::new(alloc);
            missing.push(Assertion::Emp)?;
            return Ok(missing);
        };
        self.alternatives(alloc)
    }

    // Reads one assertion or more with `||` between two.
    fn alternatives(&mut self, alloc: Global) -> Result<Vec<Assertion>, ReadError>
        ensures read { IsReadBy EndsHere SpellsAlternatives self.old (λ fs. map assertion_of fs.items) result self.new }
        ensures some { IfOk result (λ fs. 0 < length fs.items) }
    {
        let mut alternatives = Vec::new(alloc);
        'members: loop {
            alternatives.push(self.assertion(alloc)?)?;
            let Some(_) = self.take_sign(Sign::Or) else {
                return Ok(alternatives);
            };
        }
    }

    /// Reads an assertion: items with `&*&` between them.
    #[cycle(assertion)]
    pub fn assertion(&mut self, alloc: Global) -> Result<Assertion, ReadError>
        ensures { IsReadBy EndsHere SpellsAssertion self.old assertion_of result self.new }
    {
        let first = self.item(alloc)?;
        let Some(_) = self.take_sign(Sign::Star) else {
            return Ok(first);
        };
        let mut members = Vec::new(alloc);
        members.push(first)?;
        'members: loop {
            members.push(self.item(alloc)?)?;
            let Some(_) = self.take_sign(Sign::Star) else {
                return Ok(Assertion::Star(members));
            };
        }
    }

    // Reads one member of an assertion.
    #[cycle(assertion)]
    fn item(&mut self, alloc: Global) -> Result<Assertion, ReadError>
        ensures { IsReadBy EndsHere SpellsItem self.old assertion_of result self.new }
    {
        match self.ahead() {
            LookAhead::Name => self.named_item(alloc),
            LookAhead::Key(word) => self.item_by_word(alloc, word),
            _ => self.enclosed_assertion(alloc, Sign::ParenOpen, Sign::ParenClose),
        }
    }

    // Reads a member that begins with a reserved word.
    #[cycle(assertion)]
    fn item_by_word(&mut self, alloc: Global, word: Keyword) -> Result<Assertion, ReadError>
        requires { HasKey word (tokens_of self.old.rest.now) }
        ensures { IsReadBy EndsHere SpellsItem self.old assertion_of result self.new }
    {
        match word {
            Keyword::Emp => {
                self.expect_key(Keyword::Emp)?;
                Ok(Assertion::Emp)
            }
            Keyword::Acc => self.acc(alloc),
            Keyword::Lseg => self.lseg(alloc),
            Keyword::If => self.cases(alloc),
            Keyword::Null => self.null_item(alloc),
            _ => Err(ReadError::Unexpected),
        }
    }

    // Reads two assertions in braces, of which a test chooses.
    #[cycle(assertion)]
    fn cases(&mut self, alloc: Global) -> Result<Assertion, ReadError>
        requires { HasKey Keyword.If (tokens_of self.old.rest.now) }
        ensures { IsReadBy EndsHere SpellsItem self.old assertion_of result self.new }
    {
        self.expect_key(Keyword::If)?;
        let test = self.enclosed_test(alloc, false)?;
        let (test, yes) = paired(test, self.braced(alloc))?;
        let (test, yes) = self.expect_key(Keyword::Else).and(Ok((test, yes)))?;
        let ((test, yes), no) = paired((test, yes), self.braced(alloc))?;
        Ok(Assertion::Cases { test, yes, no })
    }

    // Reads an assertion in braces.
    #[cycle(assertion)]
    fn braced(&mut self, alloc: Global) -> Result<Box<Assertion>, ReadError>
        ensures { IsReadBy IsAny SpellsBraced self.old (λ b. assertion_of b.value) result self.new }
    {
        let inner = self.enclosed_assertion(alloc, Sign::BraceOpen, Sign::BraceClose)?;
        Ok(Box::new(alloc, inner)?)
    }

    /// Reads an assertion between two signs.
    #[cycle(assertion)]
    pub fn enclosed_assertion(
        &mut self,
        alloc: Global,
        opening: Sign,
        closing: Sign,
    ) -> Result<Assertion, ReadError>
        requires begins { (p : Span) → goes_on (sign opening p) ≡ false }
        requires ends { (p : Span) → goes_on (sign closing p) ≡ false }
        ensures { IsReadBy IsAny (IsBetween opening closing SpellsAssertion) self.old assertion_of result self.new }
    {
        self.expect_sign(opening)?;
        let inner = self.assertion(alloc)?;
        self.expect_sign(closing).and(Ok(inner))
    }

    // Reads `acc ( NAME )`.
    fn acc(&mut self, alloc: Global) -> Result<Assertion, ReadError>
        requires { HasKey Keyword.Acc (tokens_of self.old.rest.now) }
        ensures { IsReadBy EndsHere SpellsItem self.old assertion_of result self.new }
    {
        self.expect_key(Keyword::Acc)?;
        self.expect_sign(Sign::ParenOpen)?;
        let at = self.expect_name(alloc)?;
        self.expect_sign(Sign::ParenClose)?;
        Ok(Assertion::Acc { at })
    }

    // Reads `lseg ( operand , operand )`.
    fn lseg(&mut self, alloc: Global) -> Result<Assertion, ReadError>
        requires { HasKey Keyword.Lseg (tokens_of self.old.rest.now) }
        ensures { IsReadBy EndsHere SpellsItem self.old assertion_of result self.new }
    {
        self.expect_key(Keyword::Lseg)?;
        self.expect_sign(Sign::ParenOpen)?;
        let from = self.operand(alloc)?;
        self.expect_sign(Sign::Comma)?;
        let to = self.operand(alloc)?;
        self.expect_sign(Sign::ParenClose)?;
        Ok(Assertion::Lseg { from, to })
    }

    // Reads a cell or a comparison that begins with a name.
    fn named_item(&mut self, alloc: Global) -> Result<Assertion, ReadError>
        requires { IsAhead LookAhead.Name (tokens_of self.old.rest.now) }
        ensures { IsReadBy EndsHere SpellsItem self.old assertion_of result self.new }
    {
        let at = self.expect_name(alloc)?;
        if let Some(_) = self.take_sign(Sign::Dot) {
            self.expect_key(Keyword::Next)?;
            self.expect_sign(Sign::Arrow)?;
            let to = self.operand(alloc)?;
            return Ok(Assertion::PointsTo { at, to });
        }
        let equal = self.comparison_sign()?;
        let right = self.operand(alloc)?;
        Ok(Assertion::Pure {
            left: Operand::Var(at),
            equal,
            right,
        })
    }

    // Reads a comparison that begins with `null`.
    fn null_item(&mut self, alloc: Global) -> Result<Assertion, ReadError>
        requires { HasKey Keyword.Null (tokens_of self.old.rest.now) }
        ensures { IsReadBy EndsHere SpellsItem self.old assertion_of result self.new }
    {
        let span = self.expect_key(Keyword::Null)?;
        let equal = self.comparison_sign()?;
        let right = self.operand(alloc)?;
        Ok(Assertion::Pure {
            left: Operand::Null { span },
            equal,
            right,
        })
    }
}
