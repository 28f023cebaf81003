//! A procedure in its program.

ghost use Rattle.std.specs.Prelude.{◌≡◌, ◌↔◌, IsTrue};
ghost use Rattle.gh_ast.specs.Limits.{AreFew};
ghost use Rattle.gh_path.specs.Graphs.{number_of};
ghost use Rattle.gh_path.specs.Callees.{IsKnown};
ghost use Rattle.gh_path.specs.Lowered.{program_in};

use gh_ast::{Occ, Procedure, Program};

/// Whether a procedure has the name.
fn is_named(procedure: &Procedure, name: &[u8]) -> bool
    ensures { IsTrue result ↔ (procedure.now.name.name ≡ name.now) }
{
    procedure.name.name.bytes() == name
}

/// The procedure whose body is walked, and its program.
#[derive(Clone, Copy, Debug)]
pub struct Lowering<'t> {
    pub program: &'t Program,
    pub procedure: &'t Procedure,
}

impl<'t> Lowering<'t> {
    /// The number of the procedure that a call names.
    pub(crate) fn callee(&self, callee: &Occ) -> u16
        requires known { IsKnown (program_in self.now) callee.now.name }
        requires few { AreFew (program_in self.now) }
        ensures { result ≡ number_of (program_in self.now) callee.now.name }
    {
        let procedures = self.program.procedures.as_slice();
        let name = callee.name.bytes();
        for (place, procedure) in procedures.iter().enumerate() {
            if is_named(procedure, name) {
                return place as u16;
            }
        }
        unreachable!();
    }
}
