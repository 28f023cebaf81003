//! From the bytes of a program text to an admitted program, or to the one refusal.

ghost use Rattle.std.specs.Prelude.{◌≡◌, IfOk, IfErr, OnOk, Some, string_bytes};
ghost use Rattle.gh_ast.specs.Plain.{program_of};
ghost use Rattle.gh_parse.specs.Parsing.{IsParsed};
ghost use Rattle.gh_path.specs.Admitted.{IsAdmitted};
ghost use Rattle.gh_lens.specs.Fronts.{IsTextRefusal, IsUnadmitted, of_parse, of_check, of_list, of_terms};
ghost use Rattle.gh_lens.specs.Fronts.{placed, parse_cause, check_cause, cause};

use gh_ast::typed::Typed;
use gh_base::place::Span;
use gh_parse::error::ParseError;
use gh_parse::parse::parse;
use gh_path::conditions::Conditions;
use gh_path::listing::{ConditionsError, conditions};
use gh_symb::admit::admit;
use gh_symb::limits::SymbolicError;
use gh_types::check::{CheckError, check};
use gh_types::counts::MOST_BYTES;
use std::alloc::{AllocError, Global};

/// Why a text gives no admitted program.
#[derive(Debug, Drop)]
pub enum FrontError {
    TooLong,
    Parse(ParseError),
    Types(CheckError),
    Listing(ConditionsError),
    Terms(SymbolicError),
}

impl From<ParseError> for FrontError {
    ghost from_gives = { λ e f. f ≡ of_parse e };

    fn from(error: ParseError) -> FrontError {
        FrontError::Parse(error)
    }
}

impl From<CheckError> for FrontError {
    ghost from_gives = { λ e f. f ≡ of_check e };

    fn from(error: CheckError) -> FrontError {
        FrontError::Types(error)
    }
}

impl From<ConditionsError> for FrontError {
    ghost from_gives = { λ e f. f ≡ of_list e };

    fn from(error: ConditionsError) -> FrontError {
        FrontError::Listing(error)
    }
}

impl From<SymbolicError> for FrontError {
    ghost from_gives = { λ e f. f ≡ of_terms e };

    fn from(error: SymbolicError) -> FrontError {
        FrontError::Terms(error)
    }
}

/// The program that a text spells, if it keeps the type rules and the limits on a text.
pub fn read_program(alloc: Global, text: &[u8]) -> Result<Typed, FrontError>
    ensures parsed { IfOk result (λ typed. IsParsed text.now (program_of typed)) }
    ensures refused { IfErr result (IsTextRefusal text.now) }
{
    if text.len() > MOST_BYTES {
        return Err(FrontError::TooLong);
    }
    let program = parse(alloc, text)?;
    let typed = check(alloc, program)?;
    Ok(typed)
}

/// The conditions of a program that keeps the limits on them.
pub fn admitted(alloc: Global, typed: &Typed) -> Result<Conditions<'_>, FrontError>
    ensures same { IfOk result (λ c. c ≡ typed.now) }
    ensures admitted { OnOk result (IsAdmitted (program_of typed.now)) }
    ensures refused { IfErr result (IsUnadmitted (program_of typed.now)) }
{
    let _program = typed.program();
    let conditions = conditions(alloc, typed)?;
    admit(alloc, typed, &conditions)?;
    Ok(conditions)
}

// `TEXT at L:C`
fn at(alloc: Global, what: &str, span: Span) -> Result<String, AllocError>
    ensures { IfOk result (λ s. string_bytes s ≡ placed what.now span) }
{
    let row = span.line;
    let column = span.col;
    let text = format!(in alloc; "{what} at {row}:{column}")?;
    Ok(text)
}

fn parse_refusal(alloc: Global, error: &ParseError) -> Result<String, AllocError>
    ensures { IfOk result (λ s. parse_cause error.now ≡ Some (string_bytes s)) }
{
    match error {
        ParseError::Byte { offset } => {
            let text = format!(in alloc;
                "the byte at offset {offset} is no character of the language"
            )?;
            Ok(text)
        }
        ParseError::Deep { span } => at(alloc, "brackets nest too deep", *span),
        ParseError::Syntax { span } => at(alloc, "the syntax is wrong", *span),
        ParseError::OutOfMemory => Err(AllocError),
    }
}

fn type_refusal(alloc: Global, error: &CheckError) -> Result<String, AllocError>
    ensures { IfOk result (λ s. check_cause error.now ≡ Some (string_bytes s)) }
{
    match error {
        CheckError::TypeError { span, .. } => at(alloc, "a type rule is broken", *span),
        CheckError::Limit(limit) => at(alloc, "a limit is passed", limit.span),
        CheckError::OutOfMemory => Err(AllocError),
    }
}

/// Why a text is refused, in words. `grass check` names the rule or the limit.
pub fn refusal(alloc: Global, error: &FrontError) -> Result<String, AllocError>
    ensures { IfOk result (λ s. cause error.now ≡ Some (string_bytes s)) }
{
    match error {
        FrontError::TooLong => String::from_str(alloc, "the text is too long"),
        FrontError::Parse(error) => parse_refusal(alloc, error),
        FrontError::Types(error) => type_refusal(alloc, error),
        FrontError::Listing(ConditionsError::Limit(limit)) => {
            at(alloc, "a limit is passed", limit.span)
        }
        FrontError::Listing(ConditionsError::OutOfMemory) => Err(AllocError),
        FrontError::Terms(SymbolicError::Limit(limit)) => {
            at(alloc, "a limit is passed", limit.span)
        }
        FrontError::Terms(SymbolicError::OutOfMemory) => Err(AllocError),
    }
}
