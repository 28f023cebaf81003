//! The program and the procedure of a condition.

ghost use Rattle.gh_ast.specs.Plain.{program_of};
ghost use Rattle.gh_path.specs.Kept.{IsScoped};
ghost use Rattle.gh_symb.specs.Contexts.{IsContextOf};

use gh_ast::typed::Typed;
use gh_ast::{Procedure, Program};
use gh_path::condition::Condition;

/// A program, and one of its procedures.
#[derive(Clone, Copy)]
pub struct Context<'a> {
    pub program: &'a Program,
    pub procedure: &'a Procedure,
}

/// The program and the procedure of a condition.
pub fn context_of<'a>(typed: &'a Typed, condition: &Condition) -> Context<'a>
    requires { IsScoped (program_of typed.now) condition.now }
    ensures { IsContextOf (program_of typed.now) condition.now result }
{
    let program = typed.program();
    let procedure = &program.procedures[condition.procedure as usize];
    Context { program, procedure }
}
