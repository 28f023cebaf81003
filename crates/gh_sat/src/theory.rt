//! What literals mean beside clauses.

ghost use Rattle.std.specs.Prelude.{◌≡◌, ◌≤◌, List, [], ◌∷◌, ◌++◌, length, take, IfOk, IfSome, IfNone};
ghost use Rattle.gh_base.specs.declared.atom.Lit.{Lit};
ghost use Rattle.gh_base.specs.declared.sizes.Sizes.{Sizes};
ghost use Rattle.gh_base.specs.Atoms.{IsInRange};
ghost use Rattle.gh_sat.specs.Theory.{HasNoLit, RefutesOne, HasNoRefuted};

use gh_base::atom::Lit;
use gh_base::clause::Clause;
use std::alloc::{AllocError, Global};

/// A theory: the literals that stand asserted, and the clauses that it makes true whatever is asserted.
pub trait Theory: Drop {
    /// The numbers of terms, versions and definitions.
    ghost sizes: { Self → Sizes };

    /// The literals that stand asserted.
    ghost asserted: { Self → List Lit };

    /// The clauses that the theory makes true.
    ghost valid: { Sizes → List Lit → Type 0 };

    /// What is known of asserted literals that refute no clause of the theory.
    ghost known: { Sizes → List Lit → Type 0 };

    /// Asserts a literal. Takes no memory.
    fn assert(&mut self, lit: Lit)
        requires in_range { IsInRange (sizes self.old) lit.atom }
        requires free { HasNoLit (asserted self.old) lit.atom }
        ensures asserted { asserted self.new ≡ asserted self.old ++ lit ∷ [] }
        ensures sizes { sizes self.new ≡ sizes self.old };

    /// How many literals stand asserted.
    fn mark(&self) -> u32
        ensures { result ≡ length (asserted self.now) };

    /// Leaves the first `mark` asserted literals.
    fn undo_to(&mut self, mark: u32)
        requires { mark ≤ length (asserted self.old) }
        ensures asserted { asserted self.new ≡ take mark (asserted self.old) }
        ensures sizes { sizes self.new ≡ sizes self.old };

    /// A clause of the theory that is false under what is asserted, if there is one.
    fn conflict(&self, alloc: Global) -> Result<Option<Clause>, AllocError>
        ensures found { IfOk result (λ o. IfSome o (λ c. RefutesOne (valid (sizes self.now)) (asserted self.now) c)) }
        ensures none { IfOk result (λ o. IfNone o (HasNoRefuted (valid (sizes self.now)) (asserted self.now))) }
        ensures known { IfOk result (λ o. IfNone o (known (sizes self.now) (asserted self.now))) };
}
