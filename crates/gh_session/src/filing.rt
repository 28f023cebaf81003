//! The places of what is kept, by fingerprints.

ghost use Rattle.std.specs.Prelude.{ℕ, OnOk, Contains};
ghost use Rattle.gh_session.specs.Places.{filed};

use std::alloc::{AllocError, Global};
use std::collections::HashMap;

/// Files a place under a fingerprint.
pub fn file(
    alloc: Global,
    places: &mut HashMap<u64, Vec<usize>>,
    fingerprint: u64,
    place: usize,
) -> Result<(), AllocError>
    ensures filed { OnOk result (Contains (filed places.new fingerprint) place) }
    ensures stays { (q n : ℕ) → Contains (filed places.old q) n → Contains (filed places.new q) n }
{
    if let Some(list) = places.get_mut(&fingerprint) {
        list.push(place)?;
        return Ok(());
    }
    let mut list = Vec::new(alloc);
    list.push(place)?;
    places.insert(fingerprint, list)?;
    Ok(())
}
