//! Nodes for expressions and tests. They are made from the end of a body on.

ghost use Rattle.std.specs.Prelude.{◌<◌, length, IfOk};
ghost use Rattle.gh_ast.specs.Plain.{cond_of, conds_view};
ghost use Rattle.gh_path.specs.Graphs.{visits, reads, all_reads, tested, all_tested, some_tested};
ghost use Rattle.gh_path.specs.Lowered.{Grows, AddsBefore, AddsChoice};

use crate::lowering::Lowering;
use crate::node::{Asked, Goal, Node, Nodes, Step};
use gh_ast::{Cond, Expr, Occ};
use std::alloc::AllocError;

impl<'t> Lowering<'t> {
    /// An access before a node.
    pub(crate) fn lower_visit(
        &self,
        at: &'t Occ,
        next: usize,
        nodes: &mut Nodes<'t>,
    ) -> Result<usize, AllocError>
        requires below { next < length nodes.now }
        ensures grows { IfOk result (Grows nodes.old nodes.new) }
        ensures adds { IfOk result (AddsBefore (visits at.now) nodes.old next nodes.new) }
    {
        let asked = Asked {
            goal: Goal::Access { at: &at.name },
            span: at.span,
        };
        let step = Step::Access { at };
        let place = nodes.add(Node::Guarded { asked, step, next })?;
        Ok(place)
    }

    /// An expression's read before a node.
    pub(crate) fn lower_read(
        &self,
        expr: &'t Expr,
        next: usize,
        nodes: &mut Nodes<'t>,
    ) -> Result<usize, AllocError>
        requires below { next < length nodes.now }
        ensures grows { IfOk result (Grows nodes.old nodes.new) }
        ensures adds { IfOk result (AddsBefore (reads expr.now) nodes.old next nodes.new) }
    {
        match expr {
            Expr::Plain(_) => Ok(next),
            Expr::Read(at) => self.lower_visit(at, next, nodes),
        }
    }

    /// The reads of some expressions before a node.
    pub(crate) fn lower_reads(
        &self,
        exprs: &'t [Expr],
        next: usize,
        nodes: &mut Nodes<'t>,
    ) -> Result<usize, AllocError>
        requires below { next < length nodes.now }
        ensures grows { IfOk result (Grows nodes.old nodes.new) }
        ensures adds { IfOk result (AddsBefore (all_reads exprs.now) nodes.old next nodes.new) }
    {
        let mut place = next;
        let mut left = exprs.len();
        while left > 0 {
            left -= 1;
            place = self.lower_read(&exprs[left], place, nodes)?;
        }
        Ok(place)
    }

    /// The reads of a comparison's sides before a node.
    fn lower_sides(
        &self,
        left: &'t Expr,
        right: &'t Expr,
        next: usize,
        nodes: &mut Nodes<'t>,
    ) -> Result<usize, AllocError>
        requires below { next < length nodes.now }
        ensures grows { IfOk result (Grows nodes.old nodes.new) }
        ensures adds { IfOk result
            (AddsBefore (λ g. reads left.now (reads right.now g)) nodes.old next nodes.new) }
    {
        let second = self.lower_read(right, next, nodes)?;
        let first = self.lower_read(left, second, nodes)?;
        Ok(first)
    }

    /// A test that leads to one of two nodes.
    #[cycle(lower_test)]
    pub(crate) fn lower_test(
        &self,
        test: &'t Cond,
        yes: usize,
        no: usize,
        nodes: &mut Nodes<'t>,
    ) -> Result<usize, AllocError>
        requires yes { yes < length nodes.now }
        requires no { no < length nodes.now }
        ensures grows { IfOk result (Grows nodes.old nodes.new) }
        ensures adds { IfOk result (AddsChoice (tested (cond_of test.now)) nodes.old yes no nodes.new) }
    {
        match test {
            Cond::Compare { left, equal, right } => {
                let fork = Node::Fork {
                    left,
                    equal: *equal,
                    right,
                    yes,
                    no,
                };
                let fork = nodes.add(fork)?;
                self.lower_sides(left, right, fork, nodes)
            }
            Cond::Not(inner) => self.lower_test(inner, no, yes, nodes),
            Cond::And(members) => self.lower_all(members.as_slice(), yes, no, nodes),
            Cond::Or(members) => self.lower_some(members.as_slice(), yes, no, nodes),
        }
    }

    /// Tests that have all to be true.
    #[cycle(lower_test)]
    fn lower_all(
        &self,
        tests: &'t [Cond],
        yes: usize,
        no: usize,
        nodes: &mut Nodes<'t>,
    ) -> Result<usize, AllocError>
        requires yes { yes < length nodes.now }
        requires no { no < length nodes.now }
        ensures grows { IfOk result (Grows nodes.old nodes.new) }
        ensures adds { IfOk result (AddsChoice (all_tested (conds_view tests.now)) nodes.old yes no nodes.new) }
    {
        let mut place = yes;
        let mut left = tests.len();
        while left > 0 {
            left -= 1;
            place = self.lower_test(&tests[left], place, no, nodes)?;
        }
        Ok(place)
    }

    /// Tests of which one has to be true.
    #[cycle(lower_test)]
    fn lower_some(
        &self,
        tests: &'t [Cond],
        yes: usize,
        no: usize,
        nodes: &mut Nodes<'t>,
    ) -> Result<usize, AllocError>
        requires yes { yes < length nodes.now }
        requires no { no < length nodes.now }
        ensures grows { IfOk result (Grows nodes.old nodes.new) }
        ensures adds { IfOk result (AddsChoice (some_tested (conds_view tests.now)) nodes.old yes no nodes.new) }
    {
        let mut place = no;
        let mut left = tests.len();
        while left > 0 {
            left -= 1;
            place = self.lower_test(&tests[left], yes, place, nodes)?;
        }
        Ok(place)
    }
}
