//! Scripts.

ghost use Rattle.std.specs.Prelude.{◌≡◌};

use gh_base::clause::Clause;
use gh_base::sizes::Sizes;
use std::marker::Model;

/// Numbers of terms, versions and definitions, and the assertions over them. Contracts see it as the
/// problem whose clauses are the assertions.
#[derive(Debug, Drop)]
pub struct Script {
    pub(crate) terms: u8,
    pub(crate) versions: u8,
    pub(crate) defs: u32,
    pub(crate) asserted: Vec<Clause>,
}

impl Model for Script {
    ghost use Rattle.gh_base.specs.Grounds.{Problem};

    ghost Value = { Problem };

    ghost view = { λ s. record {
      sizes = record { terms = s.terms; versions = s.versions; defs = s.defs };
      clauses = s.asserted.items;
    } };
}

impl Script {
    /// The script of some assertions.
    pub fn new(sizes: Sizes, asserted: Vec<Clause>) -> Script
        ensures { result ≡ record { sizes = sizes; clauses = asserted.items } }
    {
        Script {
            terms: sizes.terms,
            versions: sizes.versions,
            defs: sizes.defs,
            asserted,
        }
    }

    /// The numbers of terms, versions and definitions.
    pub fn sizes(&self) -> Sizes
        ensures { result ≡ self.now.sizes }
    {
        Sizes {
            terms: self.terms,
            versions: self.versions,
            defs: self.defs,
        }
    }

    /// The assertions.
    pub fn asserted(&self) -> &[Clause]
        ensures { result.now ≡ self.now.clauses }
    {
        self.asserted.as_slice()
    }
}
