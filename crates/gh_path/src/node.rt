//! Bodies as nodes that lead to one another, with steps and checks as the text has them.

ghost use Rattle.std.specs.Prelude.{◌≡◌, ◌+◌, ◌∷◌, ◌++◌, [], length, slice_get, slice_index_or, Some, IfOk, OnOk};
ghost use Rattle.gh_path.specs.Shown.{KeepsStep, KeepsGoal, KeepsAsked, LeadsBelow, from, with_opposite, step_past};
ghost use Rattle.gh_path.specs.Shown.{step_from, other_way};
ghost use Rattle.gh_path.specs.Graphs.{assume_step, set_step, write_step, call_step};
ghost use Rattle.gh_path.specs.Kept.{step_of};
ghost use Rattle.gh_path.specs.declared.node.Node.{Node as Plain};
ghost use Rattle.gh_path.specs.declared.node.Node.TheVariants.{DeadEnd};

use crate::condition::{Check, CheckKind, PathStep};
use crate::copies::{copy_expr, copy_exprs, copy_occ, copy_occs};
use gh_ast::{Expr, Occ};
use gh_base::name::Name;
use gh_base::place::Span;
use std::alloc::{AllocError, Global};
use std::marker::Model;

/// One step as the text has it. Its numbers are those of a [`PathStep`].
#[derive(Clone, Copy, Debug)]
pub enum Step<'t> {
    Access {
        at: &'t Occ,
    },
    Assume {
        left: &'t Expr,
        equal: bool,
        right: &'t Expr,
    },
    Set {
        target: &'t Occ,
        value: &'t Expr,
    },
    Write {
        at: &'t Occ,
        value: &'t Expr,
    },
    New {
        target: &'t Occ,
    },
    Free {
        at: &'t Occ,
    },
    Call {
        targets: &'t [Occ],
        callee: u16,
        arguments: &'t [Expr],
    },
    Loop {
        number: u16,
    },
    Return {
        values: &'t [Expr],
    },
}

// The step of a comparison, as it is kept.
fn kept_assume(
    alloc: Global,
    left: &Expr,
    equal: bool,
    right: &Expr,
) -> Result<PathStep, AllocError>
    ensures { IfOk result (λ r. step_of r ≡ assume_step left.now equal right.now) }
{
    Ok(PathStep::Assume {
        left: copy_expr(alloc, left)?,
        equal,
        right: copy_expr(alloc, right)?,
    })
}

// The step that gives a variable a value, as it is kept.
fn kept_set(alloc: Global, target: &Occ, value: &Expr) -> Result<PathStep, AllocError>
    ensures { IfOk result (λ r. step_of r ≡ set_step target.now value.now) }
{
    Ok(PathStep::Set {
        target: copy_occ(alloc, target)?,
        value: copy_expr(alloc, value)?,
    })
}

// The step that writes a cell, as it is kept.
fn kept_write(alloc: Global, at: &Occ, value: &Expr) -> Result<PathStep, AllocError>
    ensures { IfOk result (λ r. step_of r ≡ write_step at.now value.now) }
{
    Ok(PathStep::Write {
        at: copy_occ(alloc, at)?,
        value: copy_expr(alloc, value)?,
    })
}

// The step of a call, as it is kept.
fn kept_call(
    alloc: Global,
    targets: &[Occ],
    callee: u16,
    arguments: &[Expr],
) -> Result<PathStep, AllocError>
    ensures { IfOk result (λ r. step_of r ≡ call_step targets.now callee arguments.now) }
{
    Ok(PathStep::Call {
        targets: copy_occs(alloc, targets)?,
        callee,
        arguments: copy_exprs(alloc, arguments)?,
    })
}

impl<'t> Step<'t> {
    /// The step on the other way of a comparison.
    fn with_opposite(self) -> Step<'t>
        ensures { result ≡ with_opposite self.entry }
    {
        match self {
            Step::Assume { left, equal, right } => Step::Assume {
                left,
                equal: !equal,
                right,
            },
            other => other,
        }
    }

    /// The step as it is kept.
    pub fn kept(&self, alloc: Global) -> Result<PathStep, AllocError>
        ensures { IfOk result (KeepsStep self.now) }
    {
        match self {
            Step::Access { at } => Ok(PathStep::Access {
                at: copy_occ(alloc, at)?,
            }),
            Step::Assume { left, equal, right } => kept_assume(alloc, left, *equal, right),
            Step::Set { target, value } => kept_set(alloc, target, value),
            Step::Write { at, value } => kept_write(alloc, at, value),
            Step::New { target } => Ok(PathStep::New {
                target: copy_occ(alloc, target)?,
            }),
            Step::Free { at } => Ok(PathStep::Free {
                at: copy_occ(alloc, at)?,
            }),
            Step::Call {
                targets,
                callee,
                arguments,
            } => kept_call(alloc, targets, *callee, arguments),
            Step::Loop { number } => Ok(PathStep::Loop { number: *number }),
            Step::Return { values } => Ok(PathStep::Return {
                values: copy_exprs(alloc, values)?,
            }),
        }
    }
}

/// What is asked, as the text has it. Its numbers are those of a [`CheckKind`].
#[derive(Clone, Copy, Debug)]
pub enum Goal<'t> {
    Access { at: &'t Name },
    CalleeEntry { callee: u16, arguments: &'t [Expr] },
    LoopEntry { number: u16 },
    Return,
    LoopEnd { number: u16 },
}

impl<'t> Goal<'t> {
    /// What is asked, as it is kept.
    fn kept(&self, alloc: Global) -> Result<CheckKind, AllocError>
        ensures { IfOk result (KeepsGoal self.now) }
    {
        match self {
            Goal::Access { at } => Ok(CheckKind::Access {
                at: at.copy(alloc)?,
            }),
            Goal::CalleeEntry { callee, arguments } => Ok(CheckKind::CalleeEntry {
                callee: *callee,
                arguments: copy_exprs(alloc, arguments)?,
            }),
            Goal::LoopEntry { number } => Ok(CheckKind::LoopEntry { number: *number }),
            Goal::Return => Ok(CheckKind::Return),
            Goal::LoopEnd { number } => Ok(CheckKind::LoopEnd { number: *number }),
        }
    }
}

/// A check as the text has it, with its place.
#[derive(Clone, Copy, Debug)]
pub struct Asked<'t> {
    pub goal: Goal<'t>,
    pub span: Span,
}

impl<'t> Asked<'t> {
    /// The check as it is kept.
    pub fn kept(&self, alloc: Global) -> Result<Check, AllocError>
        ensures { IfOk result (KeepsAsked self.now) }
    {
        let kind = self.goal.kept(alloc)?;
        Ok(Check {
            kind,
            span: self.span,
        })
    }
}

/// A place in a body, and the places of the nodes that come next. In `Fork` the comparison is true
/// on the way to `yes`, and false on the way to `no`.
#[derive(Clone, Copy, Debug)]
pub enum Node<'t> {
    DeadEnd,
    Ends {
        asked: Asked<'t>,
    },
    Moves {
        step: Step<'t>,
        next: usize,
    },
    Guarded {
        asked: Asked<'t>,
        step: Step<'t>,
        next: usize,
    },
    Fork {
        left: &'t Expr,
        equal: bool,
        right: &'t Expr,
        yes: usize,
        no: usize,
    },
}

impl<'t> Node<'t> {
    /// The step that leads on, at a comparison on the way where it is true. Of an end nothing is
    /// said.
    fn step(self) -> Step<'t>
        ensures { result ≡ step_past self.entry }
    {
        match self {
            Node::DeadEnd => Step::Loop { number: 0 },
            Node::Ends { .. } => Step::Loop { number: 0 },
            Node::Moves { step, .. } => step,
            Node::Guarded { step, .. } => step,
            Node::Fork {
                left,
                equal,
                right,
                ..
            } => Step::Assume { left, equal, right },
        }
    }
}

/// Where a step comes from: past the node at a place, or, where it is `turned`, on the way where the
/// node's comparison is false.
#[derive(Clone, Copy, Debug, PartialEq, Eq)]
pub struct Origin {
    pub place: usize,
    pub turned: bool,
}

impl Origin {
    /// Past the node at a place.
    pub(crate) fn new(place: usize) -> Origin
        ensures { result ≡ from place }
    {
        Origin {
            place,
            turned: false,
        }
    }

    /// On the other way of the comparison.
    pub(crate) fn other_way(self) -> Origin
        ensures { result ≡ other_way self }
    {
        Origin {
            place: self.place,
            turned: !self.turned,
        }
    }
}

/// Nodes, each of which leads to nodes before it. Contracts see them as a list.
#[derive(Debug, Drop)]
pub struct Nodes<'t> {
    nodes: Vec<Node<'t>>,
}

impl<'t> Model for Nodes<'t> {
    ghost use Rattle.std.specs.Prelude.{List};
    ghost use Rattle.gh_path.specs.declared.node.Node.{Node as Plain};
    ghost use Rattle.gh_path.specs.Shown.{AreLinked};

    ghost Value = { List Plain };

    ghost view = { λ n. n.nodes.items };

    ghost invariant = { λ n. AreLinked n.nodes.items };
}

impl<'t> Nodes<'t> {
    /// No nodes.
    pub fn new(alloc: Global) -> Nodes<'t>
        ensures { result ≡ [] }
    {
        Nodes {
            nodes: Vec::new(alloc),
        }
    }

    /// Adds a node, and gives its place.
    pub fn add(&mut self, node: Node<'t>) -> Result<usize, AllocError>
        requires below { LeadsBelow (length self.now) node }
        ensures place { IfOk result (λ i. i ≡ length self.old) }
        ensures longer { OnOk result (length self.new ≡ length self.old + 1) }
        ensures added { OnOk result (self.new ≡ self.old ++ node.entry ∷ []) }
    {
        let place = self.nodes.len();
        self.nodes.push(node)?;
        Ok(place)
    }

    /// The node at a place; a dead end where there is none.
    pub fn at(&self, place: usize) -> Node<'t>
        ensures there { (n : Plain) → slice_get self.now place ≡ Some n → result ≡ n }
        ensures is { result ≡ slice_index_or self.now place DeadEnd }
        ensures below { LeadsBelow place result }
    {
        match self.nodes.get(place) {
            Some(node) => *node,
            None => Node::DeadEnd,
        }
    }

    /// The step of an origin.
    pub fn step(&self, origin: Origin) -> Step<'t>
        ensures { result ≡ step_from self.now origin }
    {
        let step = self.at(origin.place).step();
        if origin.turned {
            return step.with_opposite();
        }
        step
    }
}
