//! The procedure that a condition is of, with its loops.

ghost use Rattle.std.specs.Prelude.{◌≡◌, IfNone, IfSome, slice_get, None};
ghost use Rattle.gh_ast.specs.Plain.{procedure_of, program_of};
ghost use Rattle.gh_ast.specs.Rules.{IsTyped};
ghost use Rattle.gh_path.specs.Graphs.{loops_of, IsProcedureAt, IsLoopAt};
ghost use Rattle.gh_path.specs.Walking.{loop_of};
ghost use Rattle.gh_trace.specs.Settings.{HasLoops, HasDistinctNames, here};
ghost use Rattle.gh_trace.specs.Laws.{HasOwnNames};

use gh_ast::typed::Typed;
use gh_ast::{Procedure, Program};
use gh_path::loops::While;

/// A program, one of its procedures, and the loops of that.
#[derive(Clone, Copy)]
pub struct Setting<'t> {
    pub typed: &'t Typed,
    pub procedure: &'t Procedure,
    pub loops: &'t [While<'t>],
}

/// The procedure of a number in a program.
pub fn procedure_in(program: &Program, number: u16) -> Option<&Procedure>
    ensures some { IfSome result (λ q. IsProcedureAt (program_of program.now) number (procedure_of q.now)) }
    ensures none { IfNone result (slice_get (program_of program.now).procedures number ≡ None) }
{
    program.procedures.get(usize::from(number))
}

/// The procedure of a number in a typed program.
pub fn procedure_at(typed: &Typed, number: u16) -> Option<&Procedure>
    ensures some { IfSome result (λ q. IsProcedureAt (program_of typed.now) number (procedure_of q.now)) }
    ensures none { IfNone result (slice_get (program_of typed.now).procedures number ≡ None) }
    ensures typed { IsTyped (program_of typed.now) }
    ensures own { IfSome result (λ q. HasOwnNames (procedure_of q.now)) }
    ensures distinct { IfSome result (λ q. HasDistinctNames (procedure_of q.now)) }
{
    procedure_in(typed.program(), number)
}

impl<'t> Setting<'t> {
    /// The loop of a number.
    pub fn round(self, number: u16) -> Option<While<'t>>
        requires { HasLoops self }
        ensures some { IfSome result (λ w. IsLoopAt (here self.entry) number (loop_of w)) }
        ensures none { IfNone result (slice_get (loops_of (here self.entry)) number ≡ None) }
    {
        self.loops.get(usize::from(number)).copied()
    }
}
