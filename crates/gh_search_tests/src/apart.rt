//! A theory that forbids the last two definitions together.

ghost use Rattle.std.specs.Prelude.{◌≡◌, ◌≤◌, ◌↔◌, [], Contains, IfOk, IsTrue, ⊤};
ghost use Rattle.gh_base.specs.declared.atom.Atom.TheVariants.{Def};
ghost use Rattle.gh_search_tests.specs.Apart.{last_apart};

use gh_base::atom::{Atom, Lit};
use gh_base::clause::Clause;
use gh_base::sizes::Sizes;
use gh_cc::classes::Classes;
use gh_sat::theory::Theory;
use std::alloc::{AllocError, Global};

// The theory that makes one clause true: the last two definitions aren't both true.
#[derive(Drop)]
pub(crate) struct Apart {
    asserted: Classes,
    ghost two: { 2 ≤ asserted.sizes.defs },
}

pub(crate) fn def(number: u32, positive: bool) -> Lit
    ensures { result ≡ record { atom = Def number; positive = positive } }
{
    Lit {
        atom: Atom::Def { number },
        positive,
    }
}

// Whether a literal is among some.
pub(crate) fn stands(lits: &[Lit], wanted: Lit) -> bool
    ensures { IsTrue result ↔ Contains lits.now wanted }
{
    lits.iter().any(|lit| lit.is_same(wanted))
}

impl Apart {
    // Nothing stands asserted.
    pub(crate) fn new(alloc: Global, sizes: Sizes) -> Result<Apart, AllocError>
        requires { 2 ≤ sizes.defs }
        ensures sizes { IfOk result (λ t. t.asserted.sizes ≡ sizes) }
        ensures none { IfOk result (λ t. t.asserted.lits ≡ []) }
    {
        Ok(Apart {
            asserted: Classes::new(alloc, sizes.terms, sizes.versions, sizes.defs)?,
        })
    }
}

impl Theory for Apart {
    ghost sizes = { λ t. t.asserted.sizes };

    ghost asserted = { λ t. t.asserted.lits };

    ghost valid = { λ z c. c ≡ last_apart z };

    ghost known = { λ z lits. ⊤ };

    fn assert(&mut self, lit: Lit) {
        self.asserted.assert(lit);
    }

    fn mark(&self) -> u32 {
        self.asserted.mark()
    }

    fn undo_to(&mut self, mark: u32) {
        self.asserted.undo_to(mark);
    }

    fn conflict(&self, alloc: Global) -> Result<Option<Clause>, AllocError> {
        let defs = self.asserted.sizes().defs;
        let lits = self.asserted.lits();
        if !stands(lits, def(defs - 2, true)) {
            return Ok(None);
        }
        if !stands(lits, def(defs - 1, true)) {
            return Ok(None);
        }
        Ok(Some(Clause::from_array(alloc, [def(defs - 2, false), def(defs - 1, false)])))
    }
}
