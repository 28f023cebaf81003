//! The variables that a step may change.

ghost use Rattle.std.specs.Prelude.{◌≡◌, ◌↔◌, IsTrue, Contains};
ghost use Rattle.gh_ast.specs.Plain.{statement_of, statements_view};
ghost use Rattle.gh_ast.specs.Programs.{names, Assigns, SomeAssigns};
ghost use Rattle.gh_trace.specs.Targets.{IsTarget};

use gh_ast::{Block, Occ, Stmt};
use gh_base::name::Name;

/// Some variables, or those that a body assigns.
#[derive(Clone, Copy)]
pub enum Targets<'t> {
    Names(&'t [Occ]),
    Body(&'t Block),
}

/// Whether two names are one.
pub fn is_same(one: &Name, other: &Name) -> bool
    ensures { IsTrue result ↔ (one.now ≡ other.now) }
{
    one.bytes() == other.bytes()
}

// Whether a name is that of some occurrence.
fn is_among(occurrences: &[Occ], name: &Name) -> bool
    ensures { IsTrue result ↔ Contains (names occurrences.now) name.now }
{
    for occurrence in occurrences {
        if is_same(name, &occurrence.name) {
            return true;
        }
    }
    false
}

// Whether a statement assigns a variable, itself or in a block of it.
#[cycle(assigns)]
fn assigns(statement: &Stmt, name: &Name) -> bool
    ensures { IsTrue result ↔ Assigns (statement_of statement.now) name.now }
{
    match statement {
        Stmt::Set { target, .. } => is_same(name, &target.name),
        Stmt::New { target } => is_same(name, &target.name),
        Stmt::Call { targets, .. } => is_among(targets.as_slice(), name),
        Stmt::If {
            taken,
            otherwise,
            ..
        } => {
            some_assigns(taken.statements.as_slice(), name)
                || some_assigns(otherwise.statements.as_slice(), name)
        }
        Stmt::While { body, .. } => some_assigns(body.statements.as_slice(), name),
        Stmt::Write { .. } => false,
        Stmt::Free { .. } => false,
        Stmt::Return { .. } => false,
    }
}

// Whether some of the statements assigns a variable.
#[cycle(assigns)]
fn some_assigns(statements: &[Stmt], name: &Name) -> bool
    ensures { IsTrue result ↔ SomeAssigns (statements_view statements.now) name.now }
{
    for statement in statements {
        if assigns(statement, name) {
            return true;
        }
    }
    false
}

impl<'t> Targets<'t> {
    /// Whether a variable is one of them.
    pub fn has(self, name: &Name) -> bool
        ensures { IsTrue result ↔ IsTarget self.entry name.now }
    {
        match self {
            Targets::Names(occurrences) => is_among(occurrences, name),
            Targets::Body(body) => some_assigns(body.statements.as_slice(), name),
        }
    }
}
