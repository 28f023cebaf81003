//! The mode `smt`: a condition of a program as an SMT-LIB script.

ghost use Rattle.std.specs.Prelude.{◌≡◌, ◌≤◌, IfOk};
ghost use Rattle.gh_ast.specs.Plain.{program_of};
ghost use Rattle.gh_path.specs.Admitted.{IsAdmitted};
ghost use Rattle.gh_path.specs.Kept.{IsScoped, IsOne, HoldsFor};
ghost use Rattle.gh_top.specs.Lines.{unnumbered_line, script_limit_line};
ghost use Rattle.gh_top.specs.Smts.{ReportsScript};
ghost use Rattle.gh_top.specs.Replies.{RepliesOnFile, smt_of};

use crate::front::Admitted;
use crate::report::Report;
use crate::status::Status;
use gh_ast::typed::Typed;
use gh_base::place::Span;
use gh_base::text::Text;
use gh_decide::decide::over_terms;
use gh_path::condition::Condition;
use gh_reduce::ground::ground;
use gh_smt::error::ScriptError;
use gh_smt::making::script;
use gh_smt::writing::write_script;
use std::alloc::{AllocError, Global};

// There is no condition of the number.
fn unnumbered(alloc: Global, number: u32, count: u32) -> Result<Report, AllocError>
    ensures status { IfOk result (λ r. r.status ≡ Status.LogRefused) }
    ensures text { IfOk result (λ r. r.text ≡ unnumbered_line number count) }
{
    let written = format!(in alloc; "refused: no condition {number} of {count}\n")?;
    let mut text = Text::new(alloc);
    text.push(written.as_bytes())?;
    Ok(Report {
        status: Status::LogRefused,
        text,
    })
}

// The place of the name of a condition's procedure.
fn place(typed: &Typed, condition: &Condition) -> Span
    requires { IsScoped (program_of typed.now) condition.now }
    ensures { HoldsFor (program_of typed.now) condition.now (λ _ p _. result ≡ p.name.span) }
{
    let procedure = &typed.program().procedures[condition.procedure as usize];
    procedure.name.span
}

// The script would have so many assertions, which are too many.
fn too_long(alloc: Global, span: Span, count: u64) -> Result<Report, AllocError>
    ensures status { IfOk result (λ r. r.status ≡ Status.TextRefused) }
    ensures text { IfOk result (λ r. r.text ≡ script_limit_line span count) }
{
    let row = span.line;
    let column = span.col;
    let place = format!(in alloc; "refused: Limit script at {row}:{column}")?;
    let number = format!(in alloc; ", count {count}\n")?;
    let mut text = Text::new(alloc);
    text.push(place.as_bytes())?;
    text.push(number.as_bytes())?;
    Ok(Report {
        status: Status::TextRefused,
        text,
    })
}

// The script of a condition, or that it is too long.
fn script_report(alloc: Global, typed: &Typed, condition: &Condition) -> Result<Report, AllocError>
    requires admitted { IsAdmitted (program_of typed.now) }
    requires one { IsOne (program_of typed.now) condition.now }
    ensures { IfOk result (λ r. ReportsScript (program_of typed.now) condition.now r.status r.text) }
{
    let symbolic = over_terms(alloc, typed, condition)?;
    let ground = ground(alloc, &symbolic)?;
    match script(alloc, &symbolic, &ground) {
        Ok(script) => Ok(Report {
            status: Status::Listed,
            text: write_script(alloc, &script)?,
        }),
        Err(ScriptError::TooLong { count }) => {
            let span = place(typed, condition);
            Ok(too_long(alloc, span, count)?)
        }
        Err(ScriptError::OutOfMemory) => Err(AllocError),
    }
}

/// What `smt` answers for an admitted program and the number of a condition.
pub fn smt(alloc: Global, admitted: &Admitted, number: u32) -> Result<Report, AllocError>
    requires { 1 ≤ number }
    ensures { IfOk result (λ r. RepliesOnFile (smt_of number) (program_of admitted.now) r.status r.text) }
{
    let typed = admitted.typed();
    let conditions = admitted.conditions();
    match conditions.condition(alloc, number)? {
        Some(condition) => Ok(script_report(alloc, typed, &condition)?),
        None => Ok(unnumbered(alloc, number, conditions.count())?),
    }
}
