//! All instances, in order.

ghost use Rattle.std.specs.Prelude.{◌≡◌, ◌<◌, ◌≤◌, ◌^◌, ◌*◌, Some, slice_get, map, option_map};
ghost use Rattle.std.specs.Iterator.{YieldsFirst, item_count};
ghost use Rattle.gh_inst.specs.Tuples.{tuples};
ghost use Rattle.gh_inst.specs.Table.{table, row_with};
ghost use Rattle.gh_inst.specs.Instances.{name_of, instances, IsNameInRow};

use crate::naming::InstanceName;
use crate::table::row_numbered;
use crate::tuples::{tuple_at, tuple_count};
use gh_base::atom::Term;
use std::marker::Model;

/// The name of a row's instance at a tuple.
pub(crate) fn name_at<const V: usize>(row: u8, version: u8, tuple: [Term; V]) -> InstanceName
    requires { V ≤ 4 }
    ensures { result ≡ name_of row version tuple.entry }
{
    let mut terms = [Term(0); 4];
    for i in 0..V {
        terms[i] = tuple[i];
    }
    InstanceName {
        row,
        version,
        terms,
        arity: V as u8,
    }
}

// The name at a place among a row's instances of one version.
fn name_in_version(
    row: u8,
    variables: u8,
    version: u8,
    terms: u8,
    place: u32,
    count: u32,
) -> InstanceName
    requires some { 1 ≤ variables }
    requires few { variables ≤ 4 }
    requires all { count ≡ terms ^ variables }
    requires within { place < count }
    ensures { slice_get (map (name_of row version) (tuples variables terms)) place ≡ Some result }
{
    match variables {
        1 => name_at(row, version, tuple_at::<1>(place, count, terms)),
        2 => name_at(row, version, tuple_at::<2>(place, count, terms)),
        3 => name_at(row, version, tuple_at::<3>(place, count, terms)),
        _ => name_at(row, version, tuple_at::<4>(place, count, terms)),
    }
}

// The name at a place among a row's instances, of which each version has `count`.
fn name_in_row(
    row: u8,
    variables: u8,
    versions: u8,
    terms: u8,
    place: u64,
    count: u32,
) -> InstanceName
    requires some { 1 ≤ variables }
    requires few { variables ≤ 4 }
    requires all { count ≡ terms ^ variables }
    requires within { place < versions * count }
    ensures { IsNameInRow row variables terms versions place result }
{
    let version = (place / count as u64) as u8;
    let place = (place % count as u64) as u32;
    name_in_version(row, variables, version, terms, place, count)
}

// The number of variables of a row, if it is in the table.
fn variables_numbered(row: u8) -> Option<u8>
    ensures { result ≡ option_map (λ r. r.variables) (row_with row table) }
{
    let row = row_numbered(row)?;
    Some(row.variables())
}

// The name at a place among all instances, if there are so many.
fn name_at_place(place: u64, terms: u8, versions: u8) -> Option<InstanceName>
    ensures { result ≡ slice_get (instances terms versions) place }
{
    let mut rest = place;
    for row in 1..16 {
        let variables = variables_numbered(row)?;
        let count = tuple_count(terms, variables);
        let all = versions as u64 * count as u64;
        if rest < all {
            return Some(name_in_row(row, variables, versions, terms, rest, count));
        }
        rest -= all;
    }
    None
}

/// The names of all instances over some terms and versions: by row, then by version, then by tuple,
/// each once. Contracts see the list of those that are still to come.
#[derive(Debug, Drop)]
pub struct Instances {
    terms: u8,
    versions: u8,
    place: u64,
}

impl Model for Instances {
    ghost use Rattle.std.specs.Prelude.{List, drop};
    ghost use Rattle.gh_inst.specs.declared.naming.InstanceName.{InstanceName};
    ghost use Rattle.gh_inst.specs.Instances.{instances};

    ghost Value = { List InstanceName };

    ghost view = { λ s. drop s.place (instances s.terms s.versions) };
}

impl Instances {
    /// All instances over the first terms and versions.
    pub fn new(terms: u8, versions: u8) -> Instances
        ensures { result ≡ instances terms versions }
    {
        Instances {
            terms,
            versions,
            place: 0,
        }
    }
}

impl Iterator for Instances {
    type Item = InstanceName;

    ghost next_gives = { YieldsFirst (λ s. s) };

    ghost remaining = { item_count (λ s. s) };

    fn next(&mut self) -> Option<InstanceName> {
        let name = name_at_place(self.place, self.terms, self.versions)?;
        self.place += 1;
        Some(name)
    }
}
