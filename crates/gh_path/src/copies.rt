//! Copies of parts of a text.

ghost use Rattle.std.specs.Prelude.{◌≡◌, IfOk};

use gh_ast::{Expr, Occ, Operand};
use std::alloc::{AllocError, Global};

/// A copy of an occurrence.
pub fn copy_occ(alloc: Global, occ: &Occ) -> Result<Occ, AllocError>
    ensures { IfOk result (λ o. o ≡ occ.now) }
{
    Ok(Occ {
        name: occ.name.copy(alloc)?,
        span: occ.span,
    })
}

/// A copy of an operand.
fn copy_operand(alloc: Global, operand: &Operand) -> Result<Operand, AllocError>
    ensures { IfOk result (λ o. o ≡ operand.now) }
{
    match operand {
        Operand::Null { span } => Ok(Operand::Null { span: *span }),
        Operand::Var(occ) => Ok(Operand::Var(copy_occ(alloc, occ)?)),
    }
}

/// A copy of an expression.
pub fn copy_expr(alloc: Global, expr: &Expr) -> Result<Expr, AllocError>
    ensures { IfOk result (λ e. e ≡ expr.now) }
{
    match expr {
        Expr::Plain(operand) => Ok(Expr::Plain(copy_operand(alloc, operand)?)),
        Expr::Read(occ) => Ok(Expr::Read(copy_occ(alloc, occ)?)),
    }
}

/// A copy of some occurrences.
pub fn copy_occs(alloc: Global, occs: &[Occ]) -> Result<Vec<Occ>, AllocError>
    ensures { IfOk result (λ v. v.items ≡ occs.now) }
{
    let mut copies = Vec::new(alloc);
    for occ in occs {
        copies.push(copy_occ(alloc, occ)?)?;
    }
    Ok(copies)
}

/// A copy of some expressions.
pub fn copy_exprs(alloc: Global, exprs: &[Expr]) -> Result<Vec<Expr>, AllocError>
    ensures { IfOk result (λ v. v.items ≡ exprs.now) }
{
    let mut copies = Vec::new(alloc);
    for expr in exprs {
        copies.push(copy_expr(alloc, expr)?)?;
    }
    Ok(copies)
}
