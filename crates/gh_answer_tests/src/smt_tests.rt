//! The mode `smt`.

use crate::answers::{Case, answers, wrong_case};
use gh_texts::{NOP, wide};
use gh_top::status::Status;
use std::alloc::AllocError;

// The script of the one condition of a program that does nothing.
const NOP_SCRIPT: &[u8] = b"(set-logic QF_UF)
(declare-sort Loc 0)
(declare-fun t0 () Loc)
(declare-fun b0 (Loc Loc Loc) Bool)
(declare-fun h0 (Loc Loc) Bool)
(declare-fun a0 (Loc) Bool)
(declare-fun d0 () Bool)
(declare-fun d1 () Bool)
(declare-fun d2 () Bool)
(declare-fun d3 () Bool)
(declare-fun d4 () Bool)
(declare-fun d5 () Bool)
(declare-fun d6 () Bool)
(declare-fun d7 () Bool)
(declare-fun d8 () Bool)
(assert (not (a0 t0)))
(assert (or d0 (a0 t0)))
(assert (or d0 (not (h0 t0 t0))))
(assert (or (not d0) (not (a0 t0)) (h0 t0 t0)))
(assert d0)
(assert d1)
(assert (not d2))
(assert (or (not d3) (not (a0 t0)) d2))
(assert (or (not d3) (a0 t0) (not d2)))
(assert (or d3 (a0 t0) d2))
(assert (or d3 (not (a0 t0)) (not d2)))
(assert (or (not d4) d1))
(assert (or (not d4) d3))
(assert (or d4 (not d1) (not d3)))
(assert d4)
(assert d5)
(assert (not d6))
(assert (or (not d7) (not (a0 t0)) d6))
(assert (or (not d7) (a0 t0) (not d6)))
(assert (or d7 (a0 t0) d6))
(assert (or d7 (not (a0 t0)) (not d6)))
(assert (or (not d8) d5))
(assert (or (not d8) d7))
(assert (or d8 (not d5) (not d7)))
(assert (not d8))
(assert (b0 t0 t0 t0))
(assert (or (not (b0 t0 t0 t0)) (= t0 t0)))
(assert (or (not (b0 t0 t0 t0)) (not (b0 t0 t0 t0)) (b0 t0 t0 t0) (b0 t0 t0 t0)))
(assert (or (not (b0 t0 t0 t0)) (b0 t0 t0 t0)))
(assert (or (not (b0 t0 t0 t0)) (b0 t0 t0 t0)))
(assert (or (not (b0 t0 t0 t0)) (not (b0 t0 t0 t0)) (b0 t0 t0 t0)))
(assert (or (not (b0 t0 t0 t0)) (not (b0 t0 t0 t0)) (b0 t0 t0 t0)))
(assert (or (not (b0 t0 t0 t0)) (not (b0 t0 t0 t0)) (b0 t0 t0 t0)))
(assert (or (not (b0 t0 t0 t0)) (not (b0 t0 t0 t0)) (b0 t0 t0 t0)))
(assert (or (not (b0 t0 t0 t0)) (not (b0 t0 t0 t0)) (b0 t0 t0 t0)))
(assert (or (not (h0 t0 t0)) (b0 t0 t0 t0)))
(assert (or (not (h0 t0 t0)) (not (b0 t0 t0 t0)) (= t0 t0) (b0 t0 t0 t0)))
(assert (or (a0 t0) (not (b0 t0 t0 t0)) (= t0 t0)))
(assert (or (not (h0 t0 t0)) (not (b0 t0 t0 t0)) (= t0 t0)))
(assert (or (not (h0 t0 t0)) (a0 t0)))
(check-sat)
(exit)
";

const USAGE: Case<'static> = Case {
    words: &["smt", "row", "0"],
    text: b"",
    row: NOP,
    status: Status::Usage,
    written: b"refused: usage\n",
};

const CASES: &[Case<'static>] = &[
    Case {
        words: &["smt", "row", "1"],
        status: Status::Listed,
        written: NOP_SCRIPT,
        ..USAGE
    },
    Case {
        words: &["smt", "row", "2"],
        status: Status::LogRefused,
        written: b"refused: no condition 2 of 1\n",
        ..USAGE
    },
    USAGE,
    Case {
        words: &["smt", "row", "01"],
        ..USAGE
    },
    Case {
        words: &["smt", "row"],
        ..USAGE
    },
];

#[test]
fn scripts(rt: HostRuntime) -> Result<(), AllocError> {
    assert!(rt; wrong_case(rt.alloc(), CASES)? == None);
    Ok(())
}

#[test]
fn too_long(rt: HostRuntime) -> Result<(), AllocError> {
    let alloc = rt.alloc();
    let text = wide(alloc, 31)?;
    let refused = b"refused: Limit script at 2:11, count 4450278\n";
    assert!(rt;
        answers(
            alloc,
            &["smt", "row", "1"],
            b"",
            text.as_slice(),
            Status::TextRefused,
            refused
        )?
    );
    Ok(())
}
