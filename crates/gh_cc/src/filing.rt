//! Literals filed under the keys of their atoms.

ghost use Rattle.std.specs.Prelude.{◌≡◌, ◌≢◌, ◌<◌, ◌+◌, take, IfSome, IfNone, length};
ghost use Rattle.gh_base.specs.declared.atom.Term.{Term};
ghost use Rattle.gh_base.specs.Atoms.{IsInRange, AreInRange, number_of, count_of};
ghost use Rattle.gh_cc.specs.Asserted.{equality};
ghost use Rattle.gh_cc.specs.Uses.{all_mentions};
ghost use Rattle.gh_cc.specs.Kept.{AreTied, Grows, LinksMore, IsClash, normal, reps, HaveOneSign, HaveTwoSigns};
ghost use Rattle.gh_cc.specs.Kept.{IsFiledAt, FilesLits};

use crate::clash::Clash;
use crate::moving::{IndexedLits, merge_lighter, refile_moved};
use crate::partition::Partition;
use crate::signatures::SignatureTable;
use gh_base::atom::{Atom, Lit, Term};
use gh_base::sizes::Sizes;

// The number of an atom with representatives in the places of terms.
pub(crate) fn key(sizes: Sizes, partition: &Partition, atom: Atom) -> usize
    requires in_range { IsInRange sizes atom }
    requires terms { partition.now.terms ≡ sizes.terms }
    ensures value { result ≡ number_of sizes (normal (reps partition.now.links) atom) }
    ensures below { result < count_of sizes }
{
    let atom = match atom {
        Atom::Eq { .. } | Atom::Def { .. } => atom,
        Atom::Btwn { version, x, y, z } => Atom::Btwn {
            version,
            x: partition.rep(x),
            y: partition.rep(y),
            z: partition.rep(z),
        },
        Atom::Hop { version, x, v } => Atom::Hop {
            version,
            x: partition.rep(x),
            v: partition.rep(v),
        },
        Atom::Alloc { version, x } => Atom::Alloc {
            version,
            x: partition.rep(x),
        },
    };
    sizes.number(atom)
}

// The clash of two literals of one key, if their signs differ.
fn clash_of(lits: &[Lit], first: u32, second: u32) -> Option<Clash>
    requires first { first < length lits.now }
    requires second { second < length lits.now }
    ensures same { IfNone result (HaveOneSign lits.now first second) }
    ensures clash { IfSome result (λ c. c ≡ Clash.Opposite first second) }
    ensures opposite { IfSome result (λ _. HaveTwoSigns lits.now first second) }
{
    if lits[first as usize].positive == lits[second as usize].positive {
        None
    } else {
        Some(Clash::Opposite { first, second })
    }
}

// Files the literal of a place under its atom's key, or finds a clash that it brings.
pub(crate) fn file(
    sizes: Sizes,
    lits: &[Lit],
    partition: &Partition,
    signatures: &mut SignatureTable,
    place: u32,
) -> Option<Clash>
    requires tied { AreTied sizes lits.now partition.now signatures.old }
    requires place { place < length lits.now }
    ensures tied { AreTied sizes lits.now partition.now signatures.new }
    ensures grows { Grows signatures.old signatures.new }
    ensures filed { IfNone result (IsFiledAt sizes lits.now partition.now.links signatures.new.entries place) }
    ensures clash { IfSome result (λ c. IsClash (reps partition.now.links) lits.now c) }
{
    let lit = lits[place as usize];
    if let Atom::Eq { a, b } = lit.atom {
        if !lit.positive && partition.rep(a).0 == partition.rep(b).0 {
            return Some(Clash::Unequal { place });
        }
        return None;
    }
    let number = key(sizes, partition, lit.atom);
    match signatures.get(number) {
        None => {
            signatures.put(number, place);
            None
        }
        Some(first) => clash_of(lits, first, place),
    }
}

// The terms of an equality that is asserted to be true.
pub(crate) fn equal_terms(lit: Lit) -> Option<(Term, Term)>
    ensures some { IfSome result (λ p. lit ≡ equality p.0 p.1) }
    ensures none { IfNone result ((a b : Term) → lit ≢ equality a b) }
{
    match lit.atom {
        Atom::Eq { a, b } => { if lit.positive { Some((a, b)) } else { None } }
        _ => None,
    }
}

// Takes in the last literal, and finds the clash that it brings. Once there is a clash, only classes are kept.
pub(crate) fn file_last(
    indexed: &IndexedLits,
    partition: &mut Partition,
    signatures: &mut SignatureTable,
    place: u32,
    clashed: bool,
) -> Option<Clash>
    requires tied { AreTied indexed.now.sizes (take place indexed.now.lits.now) partition.old signatures.old }
    requires last { length indexed.now.lits.now ≡ place + 1 }
    requires in_range { AreInRange indexed.now.sizes indexed.now.lits.now }
    requires uses { indexed.now.uses.now.list ≡ all_mentions indexed.now.lits.now }
    requires mentioned { indexed.now.uses.now.terms ≡ indexed.now.sizes.terms }
    ensures tied { AreTied indexed.now.sizes indexed.now.lits.now partition.new signatures.new }
    ensures links { LinksMore partition.old partition.new }
    ensures grows { Grows signatures.old signatures.new }
    ensures filed { IfNone result (
        FilesLits clashed indexed.now place partition.old partition.new signatures.old signatures.new) }
    ensures clash { IfSome result (λ c. IsClash (reps partition.new.links) indexed.now.lits.now c) }
{
    let lit = indexed.lits[place as usize];
    match equal_terms(lit) {
        Some((a, b)) => {
            if partition.rep(a).0 == partition.rep(b).0 {
                return None;
            }
            merge_lighter(indexed.sizes, partition, indexed.uses, a, b);
            if clashed {
                return None;
            }
            refile_moved(indexed, partition, signatures)
        }
        None => {
            if clashed {
                return None;
            }
            file(indexed.sizes, indexed.lits, partition, signatures, place)
        }
    }
}
