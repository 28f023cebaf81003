//! From a text to its program, or to its question.

ghost use Rattle.std.specs.Prelude.{◌≡◌, ◌<◌, ◌-◌, ◌^◌, length, IfOk, IfErr};
ghost use Rattle.gh_ast.specs.Plain.{program_of};
ghost use Rattle.gh_ast.specs.Questions.{question_of};
ghost use Rattle.gh_ast.specs.WellFormed.{IsWellFormed};
ghost use Rattle.gh_parse.specs.Views.{tokens_of};
ghost use Rattle.gh_parse.specs.Parsing.{IsParsed, IsParseRefusal, IsAsked, IsQuestionRefusal, IsScan, answered};
ghost use Rattle.gh_parse.specs.Parsing.{PrintedParse};

use crate::cursor::Parser;
use crate::error::{ParseError, ReadError};
use crate::lexer::{Lexed, lex};
use crate::scan::{deep_bracket, strange_byte};
use crate::token::Token;
use gh_ast::Program;
use gh_ast::question::Question;
use gh_base::place::Span;
use std::alloc::Global;

/// Reads a program. Of several refusals that a text deserves, `Byte` comes first, then `Deep`,
/// then `Syntax`.
pub fn parse(alloc: Global, text: &[u8]) -> Result<Program, ParseError>
    requires { length text.now < 2 ^ 32 - 1 }
    ensures parsed { IfOk result (λ p. IsParsed text.now (program_of p)) }
    ensures formed { IfOk result (λ p. IsWellFormed (program_of p)) }
    ensures refused { IfErr result (IsParseRefusal text.now) }
{
    let lexed = scan(alloc, text)?;
    let (end, whole) = (lexed.end, lexed.whole);
    let mut parser = Parser {
        rest: lexed.tokens.as_slice(),
    };
    let read = parser.program(alloc);
    answer(read, parser.rest, end, whole)
}

/// Reads a question. The refusals are those of `parse`, in the same order.
pub fn parse_question(alloc: Global, text: &[u8]) -> Result<Question, ParseError>
    requires { length text.now < 2 ^ 32 - 1 }
    ensures parsed { IfOk result (λ q. IsAsked text.now (question_of q)) }
    ensures refused { IfErr result (IsQuestionRefusal text.now) }
{
    let lexed = scan(alloc, text)?;
    let (end, whole) = (lexed.end, lexed.whole);
    let mut parser = Parser {
        rest: lexed.tokens.as_slice(),
    };
    let read = parser.question(alloc);
    answer(read, parser.rest, end, whole)
}

// The tokens of a text that has no strange byte, and whose brackets don't nest too deep.
fn scan<'t>(alloc: Global, text: &'t [u8]) -> Result<Lexed<'t>, ParseError>
    requires { length text.now < 2 ^ 32 - 1 }
    ensures { IsScan text.now result }
{
    if let Some(offset) = strange_byte(text) {
        return Err(ParseError::Byte { offset });
    }
    if let Some(span) = deep_bracket(text) {
        return Err(ParseError::Deep { span });
    }
    Ok(lex(alloc, text)?)
}

// What is answered for a text, by what was read of its tokens, those that are left, the place after
// them all, and whether they are all of the text.
fn answer<T: Drop>(
    read: Result<T, ReadError>,
    rest: &[Token<'_>],
    end: Span,
    whole: bool,
) -> Result<T, ParseError>
    ensures { result ≡ answered whole end (tokens_of rest.now) read }
{
    match read {
        Ok(value) if whole => Ok(value),
        Ok(_) => Err(ParseError::Syntax { span: end }),
        Err(ReadError::Unexpected) => {
            let parser = Parser { rest };
            Err(ParseError::Syntax {
                span: parser.place(end),
            })
        }
        Err(ReadError::OutOfMemory) => Err(ParseError::OutOfMemory),
    }
}

/// What `parse` gives for the printed text of a program that it has given is that program, places
/// aside, where the brackets of that text don't nest too deep.
pub fn printed_programs_parse_law()
    ensures { PrintedParse }
{}
