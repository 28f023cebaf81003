//! Fields, and whole programs.

ghost use Rattle.std.specs.Prelude.{◌≡◌, ◌≢◌, ◌↔◌, [], IsTrue, IfOk, IfErr, map};
ghost use Rattle.gh_ast.specs.Grammar.{SpellsWord, SpellsProgram};
ghost use Rattle.gh_ast.specs.Tokens.{keyword_text};
ghost use Rattle.gh_ast.specs.Plain.{procedure_of, program_of};
ghost use Rattle.gh_parse.specs.Views.{tokens_of};
ghost use Rattle.gh_parse.specs.Stops.{EndsHere, IsEnd};
ghost use Rattle.gh_parse.specs.Answers.{IsReadBy};
ghost use Rattle.gh_parse.specs.Procedures.{SpellsField, SpellsShape, SpellsAll, SpellsToEnd, shape_of};

use crate::cursor::Parser;
use crate::error::ReadError;
use gh_ast::sign::{Keyword, Sign};
use gh_ast::{Field, Occ, Procedure, Program};
use gh_base::name::Name;
use gh_base::place::Span;
use std::alloc::Global;

/// The fields of the struct, and the place of the brace after them.
#[derive(Debug, Drop)]
pub struct Fields {
    pub fields: Vec<Field>,
    pub close: Span,
}

impl<'t> Parser<'t> {
    /// Whether no token is left.
    pub fn is_end(&self) -> bool
        ensures { IsTrue result ↔ (tokens_of self.now.rest.now ≡ []) }
    {
        self.rest.is_empty()
    }

    /// An error where a token is left.
    pub fn expect_end(&self) -> Result<(), ReadError>
        ensures ok { IfOk result (λ _. tokens_of self.now.rest.now ≡ []) }
        ensures err { IfErr result (λ _. tokens_of self.now.rest.now ≢ []) }
    {
        if self.is_end() {
            return Ok(());
        }
        Err(ReadError::Unexpected)
    }

    /// Reads a name, or a reserved word as if it were one.
    pub fn word(&mut self, alloc: Global, reserved: Keyword) -> Result<Occ, ReadError>
        ensures { IsReadBy EndsHere (SpellsWord reserved (keyword_text reserved)) self.old (λ o. o) result self.new }
    {
        if !self.is_key(reserved) {
            return self.expect_name(alloc);
        }
        let span = self.expect_key(reserved)?;
        let name = Name::from_word(alloc, reserved.text())?;
        Ok(Occ { name, span })
    }

    /// Reads a field.
    pub fn field(&mut self, alloc: Global) -> Result<Field, ReadError>
        ensures { IsReadBy EndsHere SpellsField self.old (λ f. f) result self.new }
    {
        self.expect_key(Keyword::Var)?;
        let name = self.word(alloc, Keyword::Next)?;
        self.expect_sign(Sign::Colon)?;
        let kind = self.word(alloc, Keyword::Node)?;
        self.expect_sign(Sign::Semicolon)?;
        Ok(Field {
            name,
            kind: kind.name,
        })
    }

    /// Reads fields, and the brace after them.
    pub fn fields(&mut self, alloc: Global) -> Result<Fields, ReadError>
        ensures { IsReadBy EndsHere SpellsShape self.old shape_of result self.new }
    {
        let mut fields = Vec::new(alloc);
        'fields: while !self.is_sign(Sign::BraceClose) {
            fields.push(self.field(alloc)?)?;
        }
        let close = self.expect_sign(Sign::BraceClose)?;
        Ok(Fields { fields, close })
    }

    /// Reads procedures up to the end.
    pub fn procedures(&mut self, alloc: Global) -> Result<Vec<Procedure>, ReadError>
        ensures { IsReadBy IsEnd SpellsAll self.old (λ v. map procedure_of v.items) result self.new }
    {
        let mut procedures = Vec::new(alloc);
        'procedures: while !self.is_end() {
            procedures.push(self.procedure(alloc)?)?;
        }
        Ok(procedures)
    }

    /// Reads a whole program.
    pub fn program(&mut self, alloc: Global) -> Result<Program, ReadError>
        ensures { IsReadBy IsEnd (SpellsToEnd SpellsProgram) self.old program_of result self.new }
    {
        self.expect_key(Keyword::Struct)?;
        self.expect_key(Keyword::Node)?;
        self.expect_sign(Sign::BraceOpen)?;
        let shape = self.fields(alloc)?;
        let procedures = self.procedures(alloc)?;
        Ok(Program {
            fields: shape.fields,
            close: shape.close,
            procedures,
        })
    }
}
