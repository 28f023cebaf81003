//! A part of the heap that gives way to one of some alternatives.

ghost use Rattle.std.specs.Prelude.{◌≡◌, ◌<◌, IfOk, OnOk};
ghost use Rattle.gh_grass.specs.Claims.{ground_formula_of, ground_formula_list};
ghost use Rattle.gh_symb.specs.Inside.{AreKinds};
ghost use Rattle.gh_reduce.specs.Growth.{stated_in};
ghost use Rattle.gh_reduce.specs.Parts.{alternatives_stated, change_stated, one_is_placed, placed_list, IsChangeInside};
ghost use Rattle.gh_reduce.specs.Rows.{kinds_of};

use crate::clauses::{add_formula, add_formulas};
use crate::rows::{EachPair, EachTerm, add_each_pair, push_each_term};
use crate::statements::{meets, never};
use gh_base::ground::Ground;
use gh_grass::formula::Formula;
use gh_grass::terms::TermList;
use gh_symb::over_terms::BoundAssertion;
use std::alloc::{AllocError, Global};

// One alternative stands in the place of the part.
fn placed<'s, 'a>(
    alloc: Global,
    old: u8,
    before: &'s BoundAssertion<'a>,
    after: &'s BoundAssertion<'a>,
    terms: &TermList,
) -> Result<Vec<Formula>, AllocError>
    requires { old < 255 }
    ensures { IfOk result (λ fs. ground_formula_list fs.items ≡ placed_list (kinds_of terms.now) old before.now after.now) }
{
    let new = old + 1;
    let mut members = Vec::new(alloc);
    members.push(meets(alloc, after, terms)?)?;
    let apart = EachTerm::Apart { old, before, after };
    push_each_term(alloc, &mut members, &apart, terms.count())?;
    let replaced = EachTerm::Replaced {
        old,
        new,
        before,
        after,
    };
    push_each_term(alloc, &mut members, &replaced, terms.count())?;
    Ok(members)
}

// One of some alternatives stands in the place of the part.
fn one_placed<'s, 'a>(
    alloc: Global,
    old: u8,
    before: &'s BoundAssertion<'a>,
    after: &'s [BoundAssertion<'a>],
    terms: &TermList,
) -> Result<Formula, AllocError>
    requires { old < 255 }
    ensures { IfOk result (λ f. ground_formula_of f ≡ one_is_placed (kinds_of terms.now) old before.now after.now) }
{
    let mut members = Vec::new(alloc);
    for bound in after {
        let placed = placed(alloc, old, before, bound, terms)?;
        members.push(Formula::And(placed))?;
    }
    Ok(Formula::Or(members))
}

/// A part of the heap in a version that gives way to one of some alternatives in the next.
#[derive(Clone, Copy, Debug)]
pub struct Change<'s, 'a> {
    pub old: u8,
    pub before: &'s BoundAssertion<'a>,
    pub after: &'s [BoundAssertion<'a>],
}

// What comes in the place of the part.
fn add_alternatives(
    alloc: Global,
    ground: &mut Ground,
    change: Change<'_, '_>,
    terms: &TermList,
) -> Result<(), AllocError>
    requires few { ground.old.sizes.versions < 256 }
    requires ready { AreKinds ground.old.sizes.terms (kinds_of terms.now) }
    requires inside { IsChangeInside ground.old.sizes change }
    ensures { OnOk result (
        ground.new ≡ stated_in ground.old (alternatives_stated (kinds_of terms.now) change.entry)) }
{
    match change.after {
        [] => Ok(add_formula(alloc, ground, &never(alloc))?),
        [only] => {
            let placed = placed(alloc, change.old, change.before, only, terms)?;
            Ok(add_formulas(alloc, ground, placed.as_slice())?)
        }
        _ => {
            let one = one_placed(alloc, change.old, change.before, change.after, terms)?;
            Ok(add_formula(alloc, ground, &one)?)
        }
    }
}

/// States that the part gives way to one of the alternatives, and that the rest of the heap stays.
pub fn add_part(
    alloc: Global,
    ground: &mut Ground,
    change: Change<'_, '_>,
    terms: &TermList,
) -> Result<(), AllocError>
    requires few { ground.old.sizes.versions < 256 }
    requires ready { AreKinds ground.old.sizes.terms (kinds_of terms.now) }
    requires inside { IsChangeInside ground.old.sizes change }
    ensures { OnOk result (ground.new ≡ stated_in ground.old (change_stated (kinds_of terms.now) change.entry)) }
{
    let (old, before) = (change.old, change.before);
    let new = old + 1;
    let taken = meets(alloc, before, terms)?;
    add_formula(alloc, ground, &taken)?;
    add_alternatives(alloc, ground, change, terms)?;
    let kept = EachPair::Kept { old, new, before };
    Ok(add_each_pair(alloc, ground, &kept)?)
}
