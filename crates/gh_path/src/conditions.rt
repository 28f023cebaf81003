//! The conditions of a program, of which no list is kept.

ghost use Rattle.std.specs.Prelude.{◌≡◌, map, length, IfOk};
ghost use Rattle.gh_ast.specs.Plain.{program_of};
ghost use Rattle.gh_ast.specs.Limits.{AreFew};
ghost use Rattle.gh_path.specs.Answers.{IsNumbered};
ghost use Rattle.gh_path.specs.Admitted.{HasManyPaths, HasManySteps, NoneHas};
ghost use Rattle.gh_path.specs.Conditions.{conditions};
ghost use Rattle.gh_path.specs.Counting.{procedure_ahead};
ghost use Rattle.gh_path.specs.Roots.{AreStarts};
ghost use Rattle.gh_path.specs.Walks.{IsWalkBefore};

use crate::ahead::PathCounts;
use crate::condition::Condition;
use crate::limits::count_all;
use crate::starts::Starts;
use crate::walk::Walk;
use gh_ast::typed::Typed;
use std::alloc::{AllocError, Global};
use std::marker::Model;

/// The conditions of a program that keeps the limits on them: how many there are, and the nodes of
/// the bodies. Contracts see it as the program.
#[derive(Debug, Drop)]
pub struct Conditions<'t> {
    typed: &'t Typed,
    count: u32,
    starts: Starts<'t>,
}

impl<'t> Model for Conditions<'t> {
    ghost use Rattle.gh_ast.specs.declared.Program.{Program};
    ghost use Rattle.gh_ast.specs.Plain.{program_of};
    ghost use Rattle.gh_path.specs.Counted.{KeepsCounts};
    ghost use Rattle.gh_ast.specs.contracts.Program as whole;

    ghost Value = { Program };

    ghost coded = { whole.the_row.coded };

    ghost view = { λ c. c.typed.now };

    ghost invariant = { λ c. KeepsCounts (program_of c.typed.now) c.count c.starts };
}

impl<'t> Conditions<'t> {
    /// The conditions of a program, by what lies ahead of the starts of each procedure, and by the
    /// nodes of these.
    pub(crate) fn new(typed: &'t Typed, aheads: &[PathCounts], starts: Starts<'t>) -> Conditions<'t>
        requires few { AreFew (program_of typed.now) }
        requires counts { aheads.now ≡ map procedure_ahead (program_of typed.now).procedures }
        requires paths { NoneHas (program_of typed.now) (HasManyPaths (program_of typed.now)) }
        requires steps { NoneHas (program_of typed.now) (HasManySteps (program_of typed.now)) }
        requires starts { AreStarts (program_of typed.now) starts (conditions (program_of typed.now)) }
        ensures { result ≡ typed.now }
    {
        let count = count_all(aheads);
        Conditions {
            typed,
            count,
            starts,
        }
    }

    /// How many conditions there are.
    pub fn count(&self) -> u32
        ensures { result ≡ length (conditions (program_of self.now)) }
    {
        self.count
    }

    /// The condition of a number. Numbers start at 1.
    pub fn condition(&self, alloc: Global, number: u32) -> Result<Option<Condition>, AllocError>
        ensures { IfOk result (IsNumbered (program_of self.now) number) }
    {
        if number == 0 {
            return Ok(None);
        }
        let mut walk = Walk::from_place(alloc, &self.starts, self.count, number - 1)?;
        let more = walk.advance()?;
        if !more {
            return Ok(None);
        }
        Ok(Some(walk.take_condition()))
    }

    /// A walk from the first condition on.
    pub fn walk(&self, alloc: Global) -> Walk<'_, 't>
        ensures { IsWalkBefore (program_of self.now) result (conditions (program_of self.now)) }
    {
        Walk::new(alloc, &self.starts, self.count)
    }
}
