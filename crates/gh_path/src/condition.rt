//! Conditions as they are kept: procedures, loops and callees are numbers.

use gh_ast::{Expr, Occ};
use gh_base::name::Name;
use gh_base::place::Span;

/// One step on a path.
///
/// `callee` is the number of a procedure, from 0 in the order of the text. `number` is that of a
/// loop of the procedure, from 0 in the order of their `while`. In `Assume` the comparison of
/// `left` and `right` by `==` (where `equal`) or `!=` is true.
#[derive(Debug, Drop)]
pub enum PathStep {
    Access {
        at: Occ,
    },
    Assume {
        left: Expr,
        equal: bool,
        right: Expr,
    },
    Set {
        target: Occ,
        value: Expr,
    },
    Write {
        at: Occ,
        value: Expr,
    },
    New {
        target: Occ,
    },
    Free {
        at: Occ,
    },
    Call {
        targets: Vec<Occ>,
        callee: u16,
        arguments: Vec<Expr>,
    },
    Loop {
        number: u16,
    },
    Return {
        values: Vec<Expr>,
    },
}

/// Where a path begins: at the entry of its procedure, or at a loop of it.
#[derive(Clone, Copy, Debug, PartialEq, Eq)]
pub enum Start {
    Entry,
    Loop { number: u16 },
}

/// What is asked at the end of a path.
#[derive(Debug, Drop)]
pub enum CheckKind {
    Access { at: Name },
    CalleeEntry { callee: u16, arguments: Vec<Expr> },
    LoopEntry { number: u16 },
    Return,
    LoopEnd { number: u16 },
}

/// A check and its place: of the variable, the callee, the word `while`, the word `return` or a
/// last brace.
#[derive(Debug, Drop)]
pub struct Check {
    pub kind: CheckKind,
    pub span: Span,
}

/// A path from a start of a procedure to a check. `procedure` is the procedure's number, from 0.
#[derive(Debug, Drop)]
pub struct Condition {
    pub procedure: u16,
    pub start: Start,
    pub steps: Vec<PathStep>,
    pub check: Check,
}
