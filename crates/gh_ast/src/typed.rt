//! Well-formed programs that keep the type rules and the limits on a text.

ghost use Rattle.std.specs.Prelude.{◌≡◌};
ghost use Rattle.gh_ast.specs.Plain.{program_of};

use crate::Program;
use gh_base::place::Span;
use std::marker::Model;

/// A quantity that passes its limit.
///
/// Kind 1 counts the procedures, of which there may be 256; kind 2 the variables of a procedure,
/// up to 32; kind 3 the atoms of what a procedure requires, of all alternatives of what it ensures
/// together, or of an invariant, up to 32. `span` is the place of the procedure's name, for kind 1
/// that of the 257th. `count` is the counted number, or the greatest `u32` where that is greater.
///
/// Kinds 4 to 7 are the limits on conditions: on paths, steps, terms and versions; `count` is then one
/// more than the limit. A question has kinds 2, 3 and 6, at the place of its word `requires`.
#[derive(Clone, Copy, Debug, PartialEq, Eq)]
pub struct Limit {
    pub kind: u8,
    pub span: Span,
    pub count: u32,
}

/// A well-formed program that keeps the type rules and the limits on a text.
#[derive(Debug, Drop)]
pub struct Typed {
    program: Program,
}

impl Model for Typed {
    ghost use Rattle.gh_ast.specs.declared.Program.{Program};
    ghost use Rattle.gh_ast.specs.Plain.{program_of};
    ghost use Rattle.gh_ast.specs.Rules.{IsTyped};
    ghost use Rattle.gh_ast.specs.Limits.{KeepsLimits};
    ghost use Rattle.gh_ast.specs.WellFormed.{IsWellFormed};
    ghost use Rattle.gh_ast.specs.contracts.Program as whole;

    ghost Value = { Program };

    ghost coded = { whole.the_row.coded };

    ghost view = { λ t. t.program };

    ghost invariant = { λ t. let P = program_of t.program in IsTyped P × KeepsLimits P × IsWellFormed P };
}

impl Typed {
    ghost use Rattle.gh_ast.specs.Rules.{IsTyped};
    ghost use Rattle.gh_ast.specs.Limits.{KeepsLimits};
    ghost use Rattle.gh_ast.specs.WellFormed.{IsWellFormed};

    /// Keeps a program.
    pub fn new(program: Program) -> Typed
        requires typed { IsTyped (program_of program) }
        requires limits { KeepsLimits (program_of program) }
        requires formed { IsWellFormed (program_of program) }
        ensures { result ≡ program }
    {
        Typed { program }
    }

    /// The program.
    pub fn program(&self) -> &Program
        ensures same { result.now ≡ self.now }
        ensures typed { IsTyped (program_of result.now) }
        ensures limits { KeepsLimits (program_of result.now) }
        ensures formed { IsWellFormed (program_of result.now) }
    {
        &self.program
    }
}
