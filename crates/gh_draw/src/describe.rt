//! The description of a condition.

ghost use Rattle.std.specs.Prelude.{◌≡◌, ◌++◌, IfOk};
ghost use Rattle.gh_ast.specs.Plain.{program_of, procedure_of};
ghost use Rattle.gh_path.specs.Kept.{IsScoped};
ghost use Rattle.gh_draw.specs.Descriptions.{place_text};
ghost use Rattle.gh_draw.specs.Kept.{HasStart, HasKind, TellsStart, TellsKind, Describes};

use gh_ast::typed::Typed;
use gh_ast::{Procedure, Program};
use gh_base::place::Span;
use gh_base::text::Text;
use gh_path::condition::{CheckKind, Condition, Start};
use gh_path::loops::loops_of;
use std::alloc::{AllocError, Global};

// Adds `L:C`.
fn push_place(alloc: Global, text: &mut Text, span: Span) -> Result<(), AllocError>
    ensures { IfOk result (λ _. text.new ≡ text.old ++ place_text span) }
{
    let row = span.line;
    let column = span.col;
    let written = format!(in alloc; "{row}:{column}")?;
    text.push(written.as_bytes())
}

// Adds where a path begins.
fn push_start(
    alloc: Global,
    text: &mut Text,
    procedure: &Procedure,
    start: Start,
) -> Result<(), AllocError>
    requires { HasStart (procedure_of procedure.now) start }
    ensures { IfOk result (λ _. TellsStart (procedure_of procedure.now) start text.old text.new) }
{
    match start {
        Start::Entry => text.push(b"entry"),
        Start::Loop { number } => {
            let loops = loops_of(alloc, procedure)?;
            text.push(b"loop at ")?;
            push_place(alloc, text, loops[number as usize].at)
        }
    }
}

// Adds what is asked.
fn push_kind(text: &mut Text, program: &Program, kind: &CheckKind) -> Result<(), AllocError>
    requires { HasKind (program_of program.now) kind.now }
    ensures { IfOk result (λ _. TellsKind (program_of program.now) kind.now text.old text.new) }
{
    match kind {
        CheckKind::Access { at } => {
            text.push(b"access to ")?;
            text.push(at.bytes())
        }
        CheckKind::CalleeEntry { callee, .. } => {
            text.push(b"entry of ")?;
            text.push(program.procedures[*callee as usize].name.name.bytes())
        }
        CheckKind::LoopEntry { .. } => text.push(b"loop entry"),
        CheckKind::Return => text.push(b"return"),
        CheckKind::LoopEnd { .. } => text.push(b"loop end"),
    }
}

/// The description of a condition of the program: its procedure, its start, what is asked and where.
pub fn describe(alloc: Global, typed: &Typed, condition: &Condition) -> Result<Text, AllocError>
    requires { IsScoped (program_of typed.now) condition.now }
    ensures { IfOk result (λ t. Describes (program_of typed.now) condition.now t) }
{
    let program = typed.program();
    let procedure = &program.procedures[condition.procedure as usize];
    let mut text = Text::new(alloc);
    text.push(procedure.name.name.bytes())?;
    text.push(b" from ")?;
    push_start(alloc, &mut text, procedure, condition.start)?;
    text.push(b": ")?;
    push_kind(&mut text, program, &condition.check.kind)?;
    text.push(b" at ")?;
    push_place(alloc, &mut text, condition.check.span)?;
    Ok(text)
}
