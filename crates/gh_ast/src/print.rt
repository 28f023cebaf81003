//! The text of a program.

ghost use Rattle.std.specs.Prelude.{◌≡◌, ◌∷◌, [], map, Some, option_map, OnOk, IfOk};
ghost use Rattle.std.specs.List.{flat_map};
ghost use Rattle.gh_ast.specs.Plain.{set, new, write, free, call, comparison, points_to, cell, segment, cond_of};
ghost use Rattle.gh_ast.specs.Plain.{conds_view, assertion_of, assertions_view, statement_of, statements_view};
ghost use Rattle.gh_ast.specs.Plain.{block_of, body_of, procedure_of, program_of};
ghost use Rattle.gh_ast.specs.Bare.{ReadBack};
ghost use Rattle.gh_ast.specs.Printed.{word, reserved, mark, Adds, with_signs, name_shown, operand_shown, expr_shown};
ghost use Rattle.gh_ast.specs.Printed.{equality, bracketed, is_list, is_star, cond_shown, conds_shown, assertion_shown};
ghost use Rattle.gh_ast.specs.Printed.{assertions_shown, targets_shown, statement_shown, statements_shown};
ghost use Rattle.gh_ast.specs.Printed.{otherwise_shown, field_shown, parameter_shown, results_shown, locals_shown};
ghost use Rattle.gh_ast.specs.Printed.{body_shown, alternatives_shown, procedure_shown, program_text, in_brackets};
ghost use Rattle.gh_ast.specs.Printed.{in_braces, member_shown, return_shown, ensures_shown, head_shown};

use crate::sign::{Keyword, Sign};
use crate::{Assertion, Block, Body, Cond, Expr, Field, Occ, Operand, Procedure, Program, Stmt};
use gh_base::text::Text;
use std::alloc::{AllocError, Global};

// A token after a space.
fn put(out: &mut Text, token: &[u8]) -> Result<(), AllocError>
    ensures { OnOk result (Adds out.old out.new (word token.now ∷ [])) }
{
    out.push(b" ")?;
    out.push(token)?;
    Ok(())
}

fn put_key(out: &mut Text, key: Keyword) -> Result<(), AllocError>
    ensures { OnOk result (Adds out.old out.new (reserved key ∷ [])) }
{
    put(out, key.text())
}

fn put_sign(out: &mut Text, sign: Sign) -> Result<(), AllocError>
    ensures { OnOk result (Adds out.old out.new (mark sign ∷ [])) }
{
    put(out, sign.text())
}

fn put_name(out: &mut Text, name: &Occ) -> Result<(), AllocError>
    ensures { OnOk result (Adds out.old out.new (name_shown name.now)) }
{
    put(out, name.name.bytes())
}

// `x.next`
fn put_read(out: &mut Text, of: &Occ) -> Result<(), AllocError>
    ensures { OnOk result (Adds out.old out.new (expr_shown (Expr.Read of.now))) }
{
    put_name(out, of)?;
    put_sign(out, Sign::Dot)?;
    put_key(out, Keyword::Next)?;
    Ok(())
}

fn put_operand(out: &mut Text, operand: &Operand) -> Result<(), AllocError>
    ensures { OnOk result (Adds out.old out.new (operand_shown operand.now)) }
{
    match operand {
        Operand::Null { .. } => put_key(out, Keyword::Null),
        Operand::Var(occ) => put_name(out, occ),
    }
}

fn put_expr(out: &mut Text, expr: &Expr) -> Result<(), AllocError>
    ensures { OnOk result (Adds out.old out.new (expr_shown expr.now)) }
{
    match expr {
        Expr::Plain(operand) => put_operand(out, operand),
        Expr::Read(occ) => put_read(out, occ),
    }
}

// `==` or `!=`
fn put_equality(out: &mut Text, equal: bool) -> Result<(), AllocError>
    ensures { OnOk result (Adds out.old out.new (mark (equality equal) ∷ [])) }
{
    put_sign(out, if equal { Sign::Equal } else { Sign::Unequal })
}

fn put_names(out: &mut Text, names: &[Occ]) -> Result<(), AllocError>
    ensures { OnOk result (Adds out.old out.new (with_signs name_shown Sign.Comma names.now)) }
{
    let Some((first, rest)) = names.split_first() else {
        return Ok(());
    };
    put_name(out, first)?;
    for name in rest {
        put_sign(out, Sign::Comma)?;
        put_name(out, name)?;
    }
    Ok(())
}

fn put_exprs(out: &mut Text, exprs: &[Expr]) -> Result<(), AllocError>
    ensures { OnOk result (Adds out.old out.new (with_signs expr_shown Sign.Comma exprs.now)) }
{
    let Some((first, rest)) = exprs.split_first() else {
        return Ok(());
    };
    put_expr(out, first)?;
    for expr in rest {
        put_sign(out, Sign::Comma)?;
        put_expr(out, expr)?;
    }
    Ok(())
}

// `x : Node`
fn put_parameter(out: &mut Text, parameter: &Occ) -> Result<(), AllocError>
    ensures { OnOk result (Adds out.old out.new (parameter_shown parameter.now)) }
{
    put_name(out, parameter)?;
    put_sign(out, Sign::Colon)?;
    put_key(out, Keyword::Node)?;
    Ok(())
}

fn put_parameters(out: &mut Text, parameters: &[Occ]) -> Result<(), AllocError>
    ensures { OnOk result (Adds out.old out.new (with_signs parameter_shown Sign.Comma parameters.now)) }
{
    let Some((first, rest)) = parameters.split_first() else {
        return Ok(());
    };
    put_parameter(out, first)?;
    for parameter in rest {
        put_sign(out, Sign::Comma)?;
        put_parameter(out, parameter)?;
    }
    Ok(())
}

fn is_list_test(test: &Cond) -> bool
    ensures { result ≡ is_list (cond_of test.now) }
{
    matches!(test, Cond::And(_) | Cond::Or(_))
}

// A member of a list of tests.
#[cycle(condition)]
fn put_member(out: &mut Text, test: &Cond) -> Result<(), AllocError>
    ensures { OnOk result (Adds out.old out.new
        (bracketed (is_list (cond_of test.now)) (cond_shown (cond_of test.now)))) }
{
    if !is_list_test(test) {
        return put_test(out, test);
    }
    put_sign(out, Sign::ParenOpen)?;
    put_test(out, test)?;
    put_sign(out, Sign::ParenClose)?;
    Ok(())
}

#[cycle(condition)]
fn put_tests(out: &mut Text, between: Sign, tests: &[Cond]) -> Result<(), AllocError>
    ensures { OnOk result (Adds out.old out.new (conds_shown between (conds_view tests.now))) }
{
    let Some((first, rest)) = tests.split_first() else {
        return Ok(());
    };
    put_member(out, first)?;
    for test in rest {
        put_sign(out, between)?;
        put_member(out, test)?;
    }
    Ok(())
}

#[cycle(condition)]
fn put_test(out: &mut Text, test: &Cond) -> Result<(), AllocError>
    ensures { OnOk result (Adds out.old out.new (cond_shown (cond_of test.now))) }
{
    match test {
        Cond::Compare { left, equal, right } => {
            put_expr(out, left)?;
            put_equality(out, *equal)?;
            put_expr(out, right)?;
            Ok(())
        }
        Cond::Not(inner) => {
            put_sign(out, Sign::Bang)?;
            put_sign(out, Sign::ParenOpen)?;
            put_test(out, inner)?;
            put_sign(out, Sign::ParenClose)?;
            Ok(())
        }
        Cond::And(members) => put_tests(out, Sign::And, members.as_slice()),
        Cond::Or(members) => put_tests(out, Sign::Or, members.as_slice()),
    }
}

fn is_star_formula(assertion: &Assertion) -> bool
    ensures { result ≡ is_star (assertion_of assertion.now) }
{
    matches!(assertion, Assertion::Star(_))
}

fn put_comparison(
    out: &mut Text,
    left: &Operand,
    equal: bool,
    right: &Operand,
) -> Result<(), AllocError>
    ensures { OnOk result (Adds out.old out.new (assertion_shown (comparison left.now equal right.now))) }
{
    put_operand(out, left)?;
    put_equality(out, equal)?;
    put_operand(out, right)?;
    Ok(())
}

// `x.next |-> y`
fn put_points_to(out: &mut Text, at: &Occ, to: &Operand) -> Result<(), AllocError>
    ensures { OnOk result (Adds out.old out.new (assertion_shown (points_to at.now to.now))) }
{
    put_read(out, at)?;
    put_sign(out, Sign::Arrow)?;
    put_operand(out, to)?;
    Ok(())
}

// `acc(x)`
fn put_cell(out: &mut Text, at: &Occ) -> Result<(), AllocError>
    ensures { OnOk result (Adds out.old out.new (assertion_shown (cell at.now))) }
{
    put_key(out, Keyword::Acc)?;
    put_sign(out, Sign::ParenOpen)?;
    put_name(out, at)?;
    put_sign(out, Sign::ParenClose)?;
    Ok(())
}

// `lseg(x, y)`
fn put_segment(out: &mut Text, from: &Operand, to: &Operand) -> Result<(), AllocError>
    ensures { OnOk result (Adds out.old out.new (assertion_shown (segment from.now to.now))) }
{
    put_key(out, Keyword::Lseg)?;
    put_sign(out, Sign::ParenOpen)?;
    put_operand(out, from)?;
    put_sign(out, Sign::Comma)?;
    put_operand(out, to)?;
    put_sign(out, Sign::ParenClose)?;
    Ok(())
}

// `if (` and a test and `)`
fn put_condition(out: &mut Text, key: Keyword, test: &Cond) -> Result<(), AllocError>
    ensures { OnOk result (Adds out.old out.new (reserved key ∷ in_brackets (cond_shown (cond_of test.now)))) }
{
    put_key(out, key)?;
    put_sign(out, Sign::ParenOpen)?;
    put_test(out, test)?;
    put_sign(out, Sign::ParenClose)?;
    Ok(())
}

// An assertion in braces.
#[cycle(formula)]
fn put_part(out: &mut Text, part: &Assertion) -> Result<(), AllocError>
    ensures { OnOk result (Adds out.old out.new (in_braces (assertion_shown (assertion_of part.now)))) }
{
    put_sign(out, Sign::BraceOpen)?;
    put_assertion(out, part)?;
    put_sign(out, Sign::BraceClose)?;
    Ok(())
}

// A member of a list of assertions.
#[cycle(formula)]
fn put_item(out: &mut Text, item: &Assertion) -> Result<(), AllocError>
    ensures { OnOk result (Adds out.old out.new (member_shown (assertion_of item.now))) }
{
    if !is_star_formula(item) {
        return put_assertion(out, item);
    }
    put_sign(out, Sign::ParenOpen)?;
    put_assertion(out, item)?;
    put_sign(out, Sign::ParenClose)?;
    Ok(())
}

#[cycle(formula)]
fn put_items(out: &mut Text, items: &[Assertion]) -> Result<(), AllocError>
    ensures { OnOk result (Adds out.old out.new (assertions_shown (assertions_view items.now))) }
{
    let Some((first, rest)) = items.split_first() else {
        return Ok(());
    };
    put_item(out, first)?;
    for item in rest {
        put_sign(out, Sign::Star)?;
        put_item(out, item)?;
    }
    Ok(())
}

#[cycle(formula)]
fn put_assertion(out: &mut Text, assertion: &Assertion) -> Result<(), AllocError>
    ensures { OnOk result (Adds out.old out.new (assertion_shown (assertion_of assertion.now))) }
{
    match assertion {
        Assertion::Emp => put_key(out, Keyword::Emp),
        Assertion::Pure { left, equal, right } => put_comparison(out, left, *equal, right),
        Assertion::PointsTo { at, to } => put_points_to(out, at, to),
        Assertion::Acc { at } => put_cell(out, at),
        Assertion::Lseg { from, to } => put_segment(out, from, to),
        Assertion::Star(items) => put_items(out, items.as_slice()),
        Assertion::Cases { test, yes, no } => {
            put_condition(out, Keyword::If, test)?;
            put_part(out, yes)?;
            put_key(out, Keyword::Else)?;
            put_part(out, no)?;
            Ok(())
        }
    }
}

#[cycle(statement)]
fn put_statements(out: &mut Text, statements: &[Stmt]) -> Result<(), AllocError>
    ensures { OnOk result (Adds out.old out.new (statements_shown (statements_view statements.now))) }
{
    for statement in statements {
        put_statement(out, statement)?;
    }
    Ok(())
}

#[cycle(statement)]
fn put_block(out: &mut Text, block: &Block) -> Result<(), AllocError>
    ensures { OnOk result (Adds out.old out.new (in_braces (statements_shown (block_of block.now).statements))) }
{
    put_sign(out, Sign::BraceOpen)?;
    put_statements(out, block.statements.as_slice())?;
    put_sign(out, Sign::BraceClose)?;
    Ok(())
}

// A block after `else`, where it isn't empty.
#[cycle(statement)]
fn put_otherwise(out: &mut Text, block: &Block) -> Result<(), AllocError>
    ensures { OnOk result (Adds out.old out.new (otherwise_shown (block_of block.now).statements)) }
{
    let statements = block.statements.as_slice();
    if statements.is_empty() {
        return Ok(());
    }
    put_key(out, Keyword::Else)?;
    put_block(out, block)?;
    Ok(())
}

// `x :=`
fn put_target(out: &mut Text, target: &Occ) -> Result<(), AllocError>
    ensures { OnOk result (Adds out.old out.new (word target.now.name ∷ mark Sign.Assign ∷ [])) }
{
    put_name(out, target)?;
    put_sign(out, Sign::Assign)?;
    Ok(())
}

fn put_set(out: &mut Text, target: &Occ, value: &Expr) -> Result<(), AllocError>
    ensures { OnOk result (Adds out.old out.new (statement_shown (set target.now value.now))) }
{
    put_target(out, target)?;
    put_expr(out, value)?;
    put_sign(out, Sign::Semicolon)?;
    Ok(())
}

fn put_new(out: &mut Text, target: &Occ) -> Result<(), AllocError>
    ensures { OnOk result (Adds out.old out.new (statement_shown (new target.now))) }
{
    put_target(out, target)?;
    put_key(out, Keyword::New)?;
    put_key(out, Keyword::Node)?;
    put_sign(out, Sign::Semicolon)?;
    Ok(())
}

fn put_write(out: &mut Text, at: &Occ, value: &Expr) -> Result<(), AllocError>
    ensures { OnOk result (Adds out.old out.new (statement_shown (write at.now value.now))) }
{
    put_read(out, at)?;
    put_sign(out, Sign::Assign)?;
    put_expr(out, value)?;
    put_sign(out, Sign::Semicolon)?;
    Ok(())
}

fn put_free(out: &mut Text, at: &Occ) -> Result<(), AllocError>
    ensures { OnOk result (Adds out.old out.new (statement_shown (free at.now))) }
{
    put_key(out, Keyword::Free)?;
    put_name(out, at)?;
    put_sign(out, Sign::Semicolon)?;
    Ok(())
}

// The targets of a call and `:=`, where there are some.
fn put_targets(out: &mut Text, targets: &[Occ]) -> Result<(), AllocError>
    ensures { OnOk result (Adds out.old out.new (targets_shown targets.now)) }
{
    if targets.is_empty() {
        return Ok(());
    }
    put_names(out, targets)?;
    put_sign(out, Sign::Assign)?;
    Ok(())
}

fn put_call(
    out: &mut Text,
    targets: &[Occ],
    callee: &Occ,
    arguments: &[Expr],
) -> Result<(), AllocError>
    ensures { OnOk result (Adds out.old out.new (statement_shown (call targets.now callee.now arguments.now))) }
{
    put_targets(out, targets)?;
    put_name(out, callee)?;
    put_sign(out, Sign::ParenOpen)?;
    put_exprs(out, arguments)?;
    put_sign(out, Sign::ParenClose)?;
    put_sign(out, Sign::Semicolon)?;
    Ok(())
}

fn put_return(out: &mut Text, values: &[Expr]) -> Result<(), AllocError>
    ensures { OnOk result (Adds out.old out.new (return_shown values.now)) }
{
    put_key(out, Keyword::Return)?;
    put_exprs(out, values)?;
    put_sign(out, Sign::Semicolon)?;
    Ok(())
}

#[cycle(statement)]
fn put_statement(out: &mut Text, statement: &Stmt) -> Result<(), AllocError>
    ensures { OnOk result (Adds out.old out.new (statement_shown (statement_of statement.now))) }
{
    match statement {
        Stmt::Set { target, value } => put_set(out, target, value),
        Stmt::New { target } => put_new(out, target),
        Stmt::Write { at, value } => put_write(out, at, value),
        Stmt::Free { at } => put_free(out, at),
        Stmt::Call {
            targets,
            callee,
            arguments,
        } => put_call(out, targets.as_slice(), callee, arguments.as_slice()),
        Stmt::If {
            test,
            taken,
            otherwise,
        } => {
            put_condition(out, Keyword::If, test)?;
            put_block(out, taken)?;
            put_otherwise(out, otherwise)?;
            Ok(())
        }
        Stmt::While {
            test,
            invariant,
            body,
            ..
        } => {
            put_condition(out, Keyword::While, test)?;
            put_key(out, Keyword::Invariant)?;
            put_assertion(out, invariant)?;
            put_block(out, body)?;
            Ok(())
        }
        Stmt::Return { values, .. } => put_return(out, values.as_slice()),
    }
}

fn put_field(out: &mut Text, field: &Field) -> Result<(), AllocError>
    ensures { OnOk result (Adds out.old out.new (field_shown field.now)) }
{
    put_key(out, Keyword::Var)?;
    put_name(out, &field.name)?;
    put_sign(out, Sign::Colon)?;
    put(out, field.kind.bytes())?;
    put_sign(out, Sign::Semicolon)?;
    Ok(())
}

fn put_fields(out: &mut Text, fields: &[Field]) -> Result<(), AllocError>
    ensures { OnOk result (Adds out.old out.new (flat_map field_shown fields.now)) }
{
    for field in fields {
        put_field(out, field)?;
    }
    Ok(())
}

// The results after `returns`, where there are some.
fn put_results(out: &mut Text, results: &[Occ]) -> Result<(), AllocError>
    ensures { OnOk result (Adds out.old out.new (results_shown results.now)) }
{
    if results.is_empty() {
        return Ok(());
    }
    put_key(out, Keyword::Returns)?;
    put_sign(out, Sign::ParenOpen)?;
    put_parameters(out, results)?;
    put_sign(out, Sign::ParenClose)?;
    Ok(())
}

// One declaration of all locals, where there are some.
fn put_locals(out: &mut Text, locals: &[Occ]) -> Result<(), AllocError>
    ensures { OnOk result (Adds out.old out.new (locals_shown locals.now)) }
{
    if locals.is_empty() {
        return Ok(());
    }
    put_key(out, Keyword::Var)?;
    put_names(out, locals)?;
    put_sign(out, Sign::Colon)?;
    put_key(out, Keyword::Node)?;
    put_sign(out, Sign::Semicolon)?;
    Ok(())
}

fn put_body(out: &mut Text, body: &Body) -> Result<(), AllocError>
    ensures { OnOk result (Adds out.old out.new (body_shown (Some (body_of body.now)))) }
{
    put_sign(out, Sign::BraceOpen)?;
    put_locals(out, body.locals.as_slice())?;
    put_statements(out, body.block.statements.as_slice())?;
    put_sign(out, Sign::BraceClose)?;
    Ok(())
}

// The body, or `;` in its place.
fn put_rest(out: &mut Text, body: &Option<Body>) -> Result<(), AllocError>
    ensures { OnOk result (Adds out.old out.new (body_shown (option_map body_of body.now))) }
{
    match body {
        None => put_sign(out, Sign::Semicolon),
        Some(body) => put_body(out, body),
    }
}

// Alternatives with `||` between two.
fn put_alternatives(out: &mut Text, alternatives: &[Assertion]) -> Result<(), AllocError>
    ensures { OnOk result (Adds out.old out.new (alternatives_shown (map assertion_of alternatives.now))) }
{
    let Some((first, rest)) = alternatives.split_first() else {
        return Ok(());
    };
    put_assertion(out, first)?;
    for alternative in rest {
        put_sign(out, Sign::Or)?;
        put_assertion(out, alternative)?;
    }
    Ok(())
}

fn put_requires(out: &mut Text, condition: &Assertion) -> Result<(), AllocError>
    ensures { OnOk result (Adds out.old out.new
        (reserved Keyword.Requires ∷ assertion_shown (assertion_of condition.now))) }
{
    put_key(out, Keyword::Requires)?;
    put_assertion(out, condition)?;
    Ok(())
}

fn put_ensures(out: &mut Text, alternatives: &[Assertion]) -> Result<(), AllocError>
    ensures { OnOk result (Adds out.old out.new (ensures_shown (map assertion_of alternatives.now))) }
{
    put_key(out, Keyword::Ensures)?;
    put_alternatives(out, alternatives)?;
    Ok(())
}

// The name and the parameters.
fn put_head(out: &mut Text, name: &Occ, parameters: &[Occ]) -> Result<(), AllocError>
    ensures { OnOk result (Adds out.old out.new (head_shown name.now parameters.now)) }
{
    put_key(out, Keyword::Procedure)?;
    put_name(out, name)?;
    put_sign(out, Sign::ParenOpen)?;
    put_parameters(out, parameters)?;
    put_sign(out, Sign::ParenClose)?;
    Ok(())
}

fn put_procedure(out: &mut Text, procedure: &Procedure) -> Result<(), AllocError>
    ensures { OnOk result (Adds out.old out.new (procedure_shown (procedure_of procedure.now))) }
{
    put_head(out, &procedure.name, procedure.parameters.as_slice())?;
    put_results(out, procedure.results.as_slice())?;
    put_requires(out, &procedure.needs)?;
    put_ensures(out, procedure.gives.as_slice())?;
    put_rest(out, &procedure.body)?;
    Ok(())
}

fn put_procedures(out: &mut Text, procedures: &[Procedure]) -> Result<(), AllocError>
    ensures { OnOk result (Adds out.old out.new (flat_map procedure_shown (map procedure_of procedures.now))) }
{
    for procedure in procedures {
        put_procedure(out, procedure)?;
    }
    Ok(())
}

/// The text of a program: its tokens with one space between two, and a line feed last.
pub fn print(alloc: Global, program: &Program) -> Result<Text, AllocError>
    ensures { IfOk result (λ text. text ≡ program_text (program_of program.now)) }
{
    let mut text = Text::new(alloc);
    text.push(Keyword::Struct.text())?;
    put_key(&mut text, Keyword::Node)?;
    put_sign(&mut text, Sign::BraceOpen)?;
    put_fields(&mut text, program.fields.as_slice())?;
    put_sign(&mut text, Sign::BraceClose)?;
    put_procedures(&mut text, program.procedures.as_slice())?;
    text.push(b"\n")?;
    Ok(text)
}

/// The printed text of a program that a text can spell spells the same program, places aside.
pub fn read_back_law()
    ensures { ReadBack }
{}
