//! Grounds with all axiom instances written out as clauses.

use super::push;
use gh_base::ground::Ground;
use gh_inst::instances::Instances;
use gh_inst::naming::instance;
use std::alloc::{AllocError, Global};

// Adds definitions, so many as there are in a ground.
fn define_all(written: &mut Ground, defs: u32) {
    for _number in 0..defs {
        if written.defs() < 1000 {
            written.define();
        }
    }
}

/// The clauses of a ground, and behind them each instance of an axiom.
pub(crate) fn written_out(alloc: Global, ground: &Ground) -> Result<Ground, AllocError> {
    let (terms, versions) = (ground.terms(), ground.versions());
    let mut written = Ground::new(alloc, terms.max(1), versions.max(1));
    define_all(&mut written, ground.defs());
    for number in 0..ground.count() {
        if let Some(clause) = ground.clause(number) {
            push(&mut written, clause.copy(alloc)?)?;
        }
    }
    for name in Instances::new(terms, versions) {
        if let Some(clause) = instance(alloc, name, terms, versions) {
            push(&mut written, clause)?;
        }
    }
    Ok(written)
}
