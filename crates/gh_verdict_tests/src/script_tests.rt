//! The texts of scripts, both ways.

use gh_smt::reading::read_script;
use gh_smt::writing::write_script;
use std::alloc::{AllocError, Global};

const SCRIPT: &[u8] =
    b"(set-logic QF_UF)\n(declare-sort Loc 0)\n(declare-fun t0 () Loc)\n(declare-fun b0 (Loc Loc Loc) Bool)\n(declare-fun h0 (Loc Loc) Bool)\n(declare-fun a0 (Loc) Bool)\n(declare-fun d0 () Bool)\n(assert (not (a0 t0)))\n(assert (or d0 (not (h0 t0 t0))))\n(assert (b0 t0 t0 t0))\n(assert (or (= t0 t0) (not d0) d0 d0))\n(check-sat)\n(exit)\n";

const EMPTY: &[u8] = b"(set-logic QF_UF)\n(declare-sort Loc 0)\n(check-sat)\n(exit)\n";

const ALONE_IN_OR: &[u8] =
    b"(set-logic QF_UF)\n(declare-sort Loc 0)\n(declare-fun d0 () Bool)\n(assert (or d0))\n(check-sat)\n(exit)\n";

const OUT_OF_RANGE: &[u8] =
    b"(set-logic QF_UF)\n(declare-sort Loc 0)\n(declare-fun d0 () Bool)\n(assert d1)\n(check-sat)\n(exit)\n";

const TERMS_TURNED: &[u8] =
    b"(set-logic QF_UF)\n(declare-sort Loc 0)\n(declare-fun t0 () Loc)\n(declare-fun t1 () Loc)\n(assert (= t1 t0))\n(check-sat)\n(exit)\n";

const NUMBERS_SKIPPED: &[u8] =
    b"(set-logic QF_UF)\n(declare-sort Loc 0)\n(declare-fun t1 () Loc)\n(check-sat)\n(exit)\n";

// Whether the text is read, with this number of assertions, and written back.
fn reads_back(alloc: Global, text: &[u8], asserted: usize) -> Result<bool, AllocError> {
    match read_script(alloc, text)? {
        None => Ok(false),
        Some(script) => {
            let written = write_script(alloc, &script)?;
            Ok(written.bytes() == text && script.asserted().len() == asserted)
        }
    }
}

// Whether no script has the text.
fn is_none(alloc: Global, text: &[u8]) -> Result<bool, AllocError> {
    Ok(read_script(alloc, text)?.is_none())
}

#[test]
fn read_and_written(rt: HostRuntime) -> Result<(), AllocError> {
    assert!(rt; reads_back(rt.alloc(), SCRIPT, 4)?);
    assert!(rt; reads_back(rt.alloc(), EMPTY, 0)?);
    Ok(())
}

const NO_SCRIPTS: &[&[u8]] = &[
    b"",
    ALONE_IN_OR,
    OUT_OF_RANGE,
    TERMS_TURNED,
    NUMBERS_SKIPPED,
];

#[test]
fn no_scripts(rt: HostRuntime) -> Result<(), AllocError> {
    for text in NO_SCRIPTS {
        assert!(rt; is_none(rt.alloc(), text)?);
    }
    Ok(())
}
