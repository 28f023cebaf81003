//! The steps of a path as statements, with their lines.

ghost use Rattle.std.specs.Prelude.{◌≡◌, ◌++◌, map, OnOk, codes};
ghost use Rattle.gh_ast.specs.Plain.{program_of};
ghost use Rattle.gh_ast.specs.Programs.{names};
ghost use Rattle.gh_lens.specs.Statements as told;

use gh_ast::{Expr, Occ, Operand, Program};
use gh_base::place::Span;
use gh_base::text::Text;
use gh_path::condition::PathStep;
use gh_path::loops::While;
use gh_trace::setting::procedure_in;
use std::alloc::{AllocError, Global};

/// Adds an operand.
pub fn push_operand(text: &mut Text, operand: &Operand) -> Result<(), AllocError>
    ensures { OnOk result (text.new ≡ text.old ++ told.operand_text operand.now) }
{
    match operand {
        Operand::Null { .. } => text.push(b"null"),
        Operand::Var(occ) => text.push(occ.name.bytes()),
    }
}

fn push_expr(text: &mut Text, expr: &Expr) -> Result<(), AllocError>
    ensures { OnOk result (text.new ≡ text.old ++ told.expr_text expr.now) }
{
    match expr {
        Expr::Plain(operand) => push_operand(text, operand),
        Expr::Read(occ) => {
            text.push(occ.name.bytes())?;
            text.push(b".next")?;
            Ok(())
        }
    }
}

// Adds names, each after `, `.
fn push_other_names(text: &mut Text, occs: &[Occ]) -> Result<(), AllocError>
    ensures { OnOk result (text.new ≡ text.old ++ told.others_text (names occs.now)) }
{
    for occ in occs {
        text.push(b", ")?;
        text.push(occ.name.bytes())?;
    }
    Ok(())
}

// Adds expressions, each after `, `.
fn push_other_exprs(text: &mut Text, exprs: &[Expr]) -> Result<(), AllocError>
    ensures { OnOk result (text.new ≡ text.old ++ told.others_text (map told.expr_text exprs.now)) }
{
    for expr in exprs {
        text.push(b", ")?;
        push_expr(text, expr)?;
    }
    Ok(())
}

fn push_exprs(text: &mut Text, exprs: &[Expr]) -> Result<(), AllocError>
    ensures { OnOk result (text.new ≡ text.old ++ told.list_text (map told.expr_text exprs.now)) }
{
    let Some((first, others)) = exprs.split_first() else {
        return Ok(());
    };
    push_expr(text, first)?;
    push_other_exprs(text, others)?;
    Ok(())
}

// Adds the targets of a call and `:=`, where there are some.
fn push_targets(text: &mut Text, targets: &[Occ]) -> Result<(), AllocError>
    ensures { OnOk result (text.new ≡ text.old ++ told.targets_text (names targets.now)) }
{
    let Some((first, others)) = targets.split_first() else {
        return Ok(());
    };
    text.push(first.name.bytes())?;
    push_other_names(text, others)?;
    text.push(b" := ")?;
    Ok(())
}

// Adds a call of a name.
fn push_call_of(
    text: &mut Text,
    targets: &[Occ],
    name: &[u8],
    arguments: &[Expr],
) -> Result<(), AllocError>
    ensures { OnOk result (text.new ≡ text.old ++ told.call_text (names targets.now) name.now arguments.now) }
{
    push_targets(text, targets)?;
    text.push(name)?;
    text.push(b"(")?;
    push_exprs(text, arguments)?;
    text.push(b")")?;
    Ok(())
}

// Adds a call of the procedure of a number; nothing where there is none.
fn push_call(
    text: &mut Text,
    program: &Program,
    targets: &[Occ],
    callee: u16,
    arguments: &[Expr],
) -> Result<(), AllocError>
    ensures { OnOk result (told.AddsCall (program_of program.now) callee targets.now arguments.now text.old text.new) }
{
    match procedure_in(program, callee) {
        Some(procedure) => push_call_of(text, targets, procedure.name.name.bytes(), arguments),
        None => Ok(()),
    }
}

// Adds a comparison that is true.
fn push_comparison(
    text: &mut Text,
    left: &Expr,
    equal: bool,
    right: &Expr,
) -> Result<(), AllocError>
    ensures { OnOk result (text.new ≡ text.old ++ told.comparison_text left.now equal right.now) }
{
    push_expr(text, left)?;
    text.push(if equal { b" == " } else { b" != " })?;
    push_expr(text, right)?;
    Ok(())
}

// Adds `HEAD EXPR`.
fn push_set(text: &mut Text, name: &Occ, sign: &[u8], value: &Expr) -> Result<(), AllocError>
    ensures { OnOk result (text.new ≡ text.old ++ name.now.name ++ sign.now ++ told.expr_text value.now) }
{
    text.push(name.name.bytes())?;
    text.push(sign)?;
    push_expr(text, value)?;
    Ok(())
}

// Adds `return` and values.
fn push_return(text: &mut Text, values: &[Expr]) -> Result<(), AllocError>
    ensures { OnOk result (text.new ≡ text.old ++ codes "return" ++ told.values_text (map told.expr_text values.now)) }
{
    text.push(b"return")?;
    if values.is_empty() {
        return Ok(());
    }
    text.push(b" ")?;
    push_exprs(text, values)?;
    Ok(())
}

/// Adds a step of a path as a statement.
pub fn push_step(text: &mut Text, program: &Program, step: &PathStep) -> Result<(), AllocError>
    ensures { OnOk result (told.AddsStep (program_of program.now) step.now text.old text.new) }
{
    match step {
        PathStep::Access { at } => push_after(text, at, b" is a cell"),
        PathStep::Assume { left, equal, right } => push_comparison(text, left, *equal, right),
        PathStep::Set { target, value } => push_set(text, target, b" := ", value),
        PathStep::Write { at, value } => push_set(text, at, b".next := ", value),
        PathStep::New { target } => push_after(text, target, b" := new Node"),
        PathStep::Free { at } => push_free(text, at),
        PathStep::Call {
            targets,
            callee,
            arguments,
        } => push_call(
            text,
            program,
            targets.as_slice(),
            *callee,
            arguments.as_slice(),
        ),
        PathStep::Loop { .. } => text.push(b"the loop"),
        PathStep::Return { values } => push_return(text, values.as_slice()),
    }
}

// Adds a name and what follows it.
fn push_after(text: &mut Text, name: &Occ, rest: &[u8]) -> Result<(), AllocError>
    ensures { OnOk result (text.new ≡ text.old ++ name.now.name ++ rest.now) }
{
    text.push(name.name.bytes())?;
    text.push(rest)?;
    Ok(())
}

fn push_free(text: &mut Text, at: &Occ) -> Result<(), AllocError>
    ensures { OnOk result (text.new ≡ text.old ++ codes "free " ++ at.now.name) }
{
    text.push(b"free ")?;
    text.push(at.name.bytes())?;
    Ok(())
}

fn operand_place(operand: &Operand) -> Span
    ensures { result ≡ told.operand_place operand.now }
{
    match operand {
        Operand::Null { span } => *span,
        Operand::Var(occ) => occ.span,
    }
}

fn expr_place(expr: &Expr) -> Span
    ensures { result ≡ told.expr_place expr.now }
{
    match expr {
        Expr::Plain(operand) => operand_place(operand),
        Expr::Read(occ) => occ.span,
    }
}

fn exprs_place(exprs: &[Expr]) -> Option<Span>
    ensures { result ≡ told.exprs_place exprs.now }
{
    match exprs {
        [] => None,
        [first, ..] => Some(expr_place(first)),
    }
}

fn call_place(targets: &[Occ], arguments: &[Expr]) -> Option<Span>
    ensures { result ≡ told.call_place targets.now arguments.now }
{
    match targets {
        [] => exprs_place(arguments),
        [first, ..] => Some(first.span),
    }
}

// Where a loop stands.
fn loop_place(loops: &[While<'_>], number: u16) -> Option<Span>
    ensures { told.IsLoopPlace loops.now number result }
{
    match loops.get(usize::from(number)) {
        Some(found) => Some(found.at),
        None => None,
    }
}

/// Where a step stands in the text; none for a call or a return that has neither targets nor values.
pub fn step_place(loops: &[While<'_>], step: &PathStep) -> Option<Span>
    ensures { told.IsStepPlace loops.now step.now result }
{
    match step {
        PathStep::Access { at } => Some(at.span),
        PathStep::Assume { left, .. } => Some(expr_place(left)),
        PathStep::Set { target, .. } => Some(target.span),
        PathStep::Write { at, .. } => Some(at.span),
        PathStep::New { target } => Some(target.span),
        PathStep::Free { at } => Some(at.span),
        PathStep::Call {
            targets,
            arguments,
            ..
        } => call_place(targets.as_slice(), arguments.as_slice()),
        PathStep::Loop { number } => loop_place(loops, *number),
        PathStep::Return { values } => exprs_place(values.as_slice()),
    }
}

/// Adds `line L: ` for a place.
pub fn push_line(alloc: Global, text: &mut Text, place: Option<Span>) -> Result<(), AllocError>
    ensures { OnOk result (text.new ≡ text.old ++ told.line_text place) }
{
    match place {
        None => Ok(()),
        Some(place) => {
            let row = place.line;
            let written = format!(in alloc; "line {row}: ")?;
            text.push(written.as_bytes())
        }
    }
}
