// Tables of names.

ghost use Rattle.std.specs.Prelude.{◌≡◌, [], List, IfOk, OnOk, is_none, IsTrue, ◌↔◌, map};
ghost use Rattle.gh_ast.specs.declared.Occ.{Occ as Whole};
ghost use Rattle.gh_ast.specs.Programs.{names};
ghost use Rattle.gh_ast.specs.Rules.{HasName};
ghost use Rattle.gh_ast.specs.Plain.{procedure_of};
ghost use Rattle.gh_ast.specs.Occurrences.{locals_of, variables_of};
ghost use Rattle.gh_types.specs.Faults.{IsFirstOf};
ghost use Rattle.gh_types.specs.Checks.{RepeatErrors};
ghost use Rattle.gh_types.specs.Tables.{place_in, AddsPlace, IsTableOf};

use crate::fault::{Fault, earlier};
use gh_ast::{Occ, Procedure};
use std::alloc::{AllocError, Global};
use std::collections::BTreeMap;

/// The first places of the names of a list.
#[derive(Drop)]
pub struct Names<'a> {
    pub places: BTreeMap<&'a [u8], usize>,
}

impl<'a> Names<'a> {
    /// No names.
    pub fn new(alloc: Global) -> Names<'a>
        ensures { IsTableOf [] result.places }
    {
        Names {
            places: BTreeMap::new(alloc),
        }
    }

    /// The first place of a name, if it has one.
    pub fn place(&self, name: &[u8]) -> Option<usize>
        ensures { result ≡ place_in self.now.places name.now }
    {
        self.places.get(name).copied()
    }

    /// Whether the name of an occurrence has a place.
    pub fn has(&self, occurrence: &Occ) -> bool
        ensures { (os : List Whole) → IsTableOf (names os) self.now.places →
            (IsTrue result ↔ HasName os occurrence.now.name) }
    {
        self.places.contains_key(occurrence.name.bytes())
    }

    /// Adds a name that stands at a place, unless the name has one, and says whether it was added.
    pub fn add(&mut self, name: &'a [u8], place: usize) -> Result<bool, AllocError>
        ensures added { IfOk result (λ added. added ≡ is_none (place_in self.old.places name.now)) }
        ensures names { OnOk result (AddsPlace name.now place self.old.places self.new.places) }
    {
        if self.places.contains_key(name) {
            return Ok(false);
        }
        self.places.insert(name, place)?;
        Ok(true)
    }
}

/// The first place of each name among some occurrences.
pub fn names_of<'a>(alloc: Global, occurrences: &[&'a Occ]) -> Result<Names<'a>, AllocError>
    ensures { IfOk result (λ names. IsTableOf (map (λ o. o.name) (map (λ o. o.now) occurrences.now)) names.places) }
{
    let mut names = Names::new(alloc);
    for (place, occurrence) in occurrences.iter().enumerate() {
        names.add(occurrence.name.bytes(), place)?;
    }
    Ok(names)
}

/// The first name that stands earlier in a list, as an error with a number.
pub fn repeated(
    alloc: Global,
    number: u8,
    occurrences: &[&Occ],
) -> Result<Option<Fault>, AllocError>
    ensures { IfOk result (IsFirstOf (RepeatErrors number (map (λ o. o.now) occurrences.now))) }
{
    let mut names = Names::new(alloc);
    let mut first = None;
    for (place, occurrence) in occurrences.iter().enumerate() {
        let is_new = names.add(occurrence.name.bytes(), place)?;
        first = earlier(first, Fault::unless(is_new, number, occurrence.span));
    }
    Ok(first)
}

/// The occurrences of a list, one by one.
pub fn each<'a>(alloc: Global, occurrences: &'a [Occ]) -> Result<Vec<&'a Occ>, AllocError>
    ensures { IfOk result (λ v. map (λ o. o.now) v.items ≡ occurrences.now) }
{
    occurrences.iter().collect(alloc)
}

/// The names of some procedures, in order.
pub fn procedure_names<'a>(
    alloc: Global,
    procedures: &'a [Procedure],
) -> Result<Vec<&'a Occ>, AllocError>
    ensures { IfOk result (λ v. map (λ o. o.now) v.items ≡ map (λ p. p.name) procedures.now) }
{
    let mut names = Vec::with_capacity(alloc, procedures.len())?;
    for procedure in procedures {
        names.push(&procedure.name)?;
    }
    Ok(names)
}

/// The variables of a procedure, in order.
pub fn variables<'a>(alloc: Global, procedure: &'a Procedure) -> Result<Vec<&'a Occ>, AllocError>
    ensures { IfOk result (λ v. map (λ o. o.now) v.items ≡ variables_of (procedure_of procedure.now)) }
{
    procedure
        .parameters
        .iter()
        .chain(procedure.results.iter())
        .chain(locals(procedure))
        .collect(alloc)
}

/// The locals of a procedure.
pub fn locals(procedure: &Procedure) -> &[Occ]
    ensures { result.now ≡ locals_of (procedure_of procedure.now) }
{
    match &procedure.body {
        Some(body) => body.locals.as_slice(),
        None => &[],
    }
}
