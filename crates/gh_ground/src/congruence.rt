//! Equality and congruence as a theory.

ghost use Rattle.std.specs.Prelude.{◌≡◌, ◌≤◌, [], IfOk};
ghost use Rattle.gh_cc.specs.Fields.{most_filed};
ghost use Rattle.gh_base.specs.Atoms.{count_of};

use gh_base::atom::Lit;
use gh_base::clause::Clause;
use gh_cc::classes::Classes;
use gh_sat::theory::Theory;
use std::alloc::{AllocError, Global};

/// The theory that makes the clauses true which follow from equality and congruence alone.
#[derive(Debug, Drop)]
pub struct Congruence {
    classes: Classes,
}

impl Congruence {
    /// Nothing stands asserted. Room for all atoms is taken here, of which there are at most `MOST_FILED`: for more no
    /// room is taken, as if memory ran out.
    pub fn new(alloc: Global, terms: u8, versions: u8, defs: u32) -> Result<Congruence, AllocError>
        ensures sizes { IfOk result (λ c. c.classes.sizes
            ≡ record { terms = terms; versions = versions; defs = defs }) }
        ensures none { IfOk result (λ c. c.classes.lits ≡ []) }
        ensures few { IfOk result (λ c. count_of c.classes.sizes ≤ most_filed) }
    {
        Ok(Congruence {
            classes: Classes::new(alloc, terms, versions, defs)?,
        })
    }
}

impl Theory for Congruence {
    ghost use Rattle.gh_base.specs.Meaning.{IsEqualityClause};
    ghost use Rattle.gh_cc.specs.Asserted.{IsConsistent};

    ghost sizes = { λ c. c.classes.sizes };

    ghost asserted = { λ c. c.classes.lits };

    ghost valid = { λ sizes clause. IsEqualityClause sizes clause };

    ghost known = { λ sizes lits. IsConsistent sizes lits };

    fn assert(&mut self, lit: Lit) {
        self.classes.assert(lit);
    }

    fn mark(&self) -> u32 {
        self.classes.mark()
    }

    fn undo_to(&mut self, mark: u32) {
        self.classes.undo_to(mark);
    }

    fn conflict(&self, alloc: Global) -> Result<Option<Clause>, AllocError> {
        self.classes.conflict(alloc)
    }
}
