//! Asserted literals, with the classes of terms that they make.

ghost use Rattle.std.specs.Prelude.{◌≡◌, ◌<◌, ◌≤◌, ◌∷◌, ◌++◌, ◌↔◌, [], IfOk, IfSome, IfNone, IsTrue, length, take};
ghost use Rattle.gh_cc.specs.Kept.{first_clash, clash_before};
ghost use Rattle.gh_base.specs.Atoms.{IsInRange, count_of};
ghost use Rattle.gh_cc.specs.Fields.{most_filed};
ghost use Rattle.gh_cc.specs.Asserted.{IsUnasserted, AreEqual, IsConsistent, IsConflict};

use crate::clash::Clash;
use crate::filing::file_last;
use crate::moving::{IndexedLits, mention};
use crate::partition::Partition;
use crate::refuting::refutation;
use crate::signatures::SignatureTable;
use crate::uses::Uses;
use gh_base::atom::{Lit, Term};
use gh_base::clause::Clause;
use gh_base::sizes::Sizes;
use std::alloc::{AllocError, Global};
use std::marker::Model;

/// How many links and entries there were before a literal was asserted.
#[derive(Clone, Copy, Debug, PartialEq, Eq)]
pub(crate) struct Stage {
    pub depth: u8,
    pub entries: u32,
}

/// The first clash, with the place of the literal whose assertion brought it.
#[derive(Clone, Copy, Debug, PartialEq, Eq)]
pub(crate) struct ClashAt {
    pub place: u32,
    pub clash: Clash,
}

/// Literals that stand asserted.
#[derive(Debug, Drop)]
pub struct Classes {
    sizes: Sizes,
    lits: Vec<Lit>,
    stages: Vec<Stage>,
    partition: Partition,
    signatures: SignatureTable,
    uses: Uses,
    clash: Option<ClashAt>,
}

impl Model for Classes {
    ghost use Rattle.gh_cc.specs.Asserted.{Asserted};

    ghost Value = { Asserted };

    ghost use Rattle.gh_cc.specs.Fields.{core_of, HaveSizes, HaveRoom, HasMentions};
    ghost use Rattle.gh_cc.specs.Kept.{IsKept};

    ghost view = { λ c. record { sizes = c.sizes; lits = c.lits.items } };

    ghost invariant = { λ c. IsKept (core_of c) × HaveSizes c × HaveRoom c × HasMentions c };
}

// The clash that stands after a literal was taken in.
fn first_clash(before: Option<ClashAt>, place: u32, found: Option<Clash>) -> Option<ClashAt>
    ensures { result ≡ first_clash before place found }
{
    match before {
        Some(_) => before,
        None => match found {
            None => None,
            Some(clash) => Some(ClashAt { place, clash }),
        },
    }
}

// The clash that stands after the literals from a place on were taken back.
fn clash_before(mark: u32, clash: Option<ClashAt>) -> Option<ClashAt>
    ensures { result ≡ clash_before mark clash }
{
    match clash {
        None => None,
        Some(found) => {
            if found.place < mark {
                Some(found)
            } else {
                None
            }
        }
    }
}

/// The most atoms of which classes are kept: 32 bits number three mentions of each.
pub const MOST_FILED: usize = 1_431_655_764;

impl Classes {
    /// Nothing stands asserted. Room for all atoms is taken here. There are at most `MOST_FILED` of them: for
    /// more no room is taken, as if memory ran out.
    pub fn new(alloc: Global, terms: u8, versions: u8, defs: u32) -> Result<Classes, AllocError>
        ensures sizes { IfOk result (λ c. c.sizes ≡ record { terms = terms; versions = versions; defs = defs }) }
        ensures none { IfOk result (λ c. c.lits ≡ []) }
        ensures few { IfOk result (λ c. count_of c.sizes ≤ most_filed) }
    {
        let sizes = Sizes {
            terms,
            versions,
            defs,
        };
        let count = sizes.count();
        if count > MOST_FILED {
            return Err(AllocError);
        }
        Ok(Classes {
            sizes,
            lits: Vec::with_capacity(alloc, count)?,
            stages: Vec::with_capacity(alloc, count)?,
            partition: Partition::new(alloc, terms)?,
            signatures: SignatureTable::new(alloc, count)?,
            uses: Uses::new(alloc, terms, 3 * count)?,
            clash: None,
        })
    }

    /// Asserts a literal. It takes constant time but for an equality that merges two classes, and then time in how
    /// often the class that is mentioned less is mentioned.
    pub fn assert(&mut self, lit: Lit)
        requires in_range { IsInRange self.old.sizes lit.atom }
        requires free { IsUnasserted self.old.lits lit.atom }
        ensures { self.new ≡ record self.old { lits = self.old.lits ++ lit ∷ [] } }
    {
        let place = self.lits.len() as u32;
        self.stages.push_reserved(Stage {
            depth: self.partition.depth() as u8,
            entries: self.signatures.len() as u32,
        });
        self.lits.push_reserved(lit);
        mention(self.sizes, &mut self.uses, lit.atom);
        let indexed = IndexedLits {
            sizes: self.sizes,
            lits: self.lits.as_slice(),
            uses: &self.uses,
        };
        let clashed = self.clash.is_some();
        let found = file_last(
            &indexed,
            &mut self.partition,
            &mut self.signatures,
            place,
            clashed,
        );
        self.clash = first_clash(self.clash, place, found);
    }

    /// Takes the last literals back, so that the first `mark` stand. It takes at most the time of their assertion.
    pub fn undo_to(&mut self, mark: u32)
        requires { mark ≤ length self.old.lits }
        ensures { self.new ≡ record self.old { lits = take mark self.old.lits } }
    {
        let left = mark as usize;
        if left < self.lits.len() {
            let stage = self.stages[left];
            self.partition.cut(stage.depth as usize);
            self.signatures.cut(stage.entries as usize);
            self.uses.cut(3 * left);
            self.lits.truncate(left);
            self.stages.truncate(left);
            self.clash = clash_before(mark, self.clash);
        }
    }

    /// Whether the asserted equalities make two terms equal. A term that isn't in range is equal to itself alone.
    pub fn same(&self, a: Term, b: Term) -> bool
        ensures { IsTrue result ↔ AreEqual self.now a b }
    {
        self.partition.class_of(a).0 == self.partition.class_of(b).0
    }

    /// The literals that stand asserted, in order.
    pub fn lits(&self) -> &[Lit]
        ensures { result.now ≡ self.now.lits }
    {
        self.lits.as_slice()
    }

    /// The numbers of terms, versions and definitions.
    pub fn sizes(&self) -> Sizes
        ensures { result ≡ self.now.sizes }
    {
        self.sizes
    }

    /// How many literals stand asserted.
    pub fn mark(&self) -> u32
        ensures { result ≡ length self.now.lits }
    {
        self.lits.len() as u32
    }

    /// A clause that follows from equality and congruence alone and whose literals negate asserted ones,
    /// if there is one.
    pub fn conflict(&self, alloc: Global) -> Result<Option<Clause>, AllocError>
        ensures found { IfOk result (λ o. IfSome o (IsConflict self.now)) }
        ensures none { IfOk result (λ o. IfNone o (IsConsistent self.now.sizes self.now.lits)) }
    {
        match self.clash {
            None => Ok(None),
            Some(found) => {
                let lits = self.lits.as_slice();
                let clause = refutation(alloc, self.sizes, lits, &self.partition, found.clash)?;
                Ok(Some(clause))
            }
        }
    }
}
