//! Nodes for statements, and the starts of a procedure.

ghost use Rattle.std.specs.Prelude.{◌≡◌, ◌<◌, length, slice_index, IfOk};
ghost use Rattle.gh_ast.specs.Plain.{statement_of, statements_view, set, new, write, free, call, return};
ghost use Rattle.gh_ast.specs.Limits.{AreFew};
ghost use Rattle.gh_path.specs.Callees.{IsKnown};
ghost use Rattle.gh_path.specs.Lowered.{program_in, Suits, AllSuit, EachSuits, SuitEach, SuitsAt};
ghost use Rattle.gh_path.specs.Lowered.{Grows, AddsPlain, AddsEnd, AddsPass, AddsStatement, AddsBlock, AreFirstLoops};

use crate::loops::{count_all_loops, count_loops};
use crate::lowering::Lowering;
use crate::node::{Asked, Goal, Node, Nodes, Step};
use gh_ast::{Cond, Expr, Occ, Stmt};
use gh_base::place::Span;
use std::alloc::{AllocError, Global};

/// The number of the first loop of each of some statements, where that of the first is given.
fn first_loops(alloc: Global, statements: &[Stmt], first: u32) -> Result<Vec<u32>, AllocError>
    ensures numbered { IfOk result (λ v. AreFirstLoops statements.now first v.items) }
    ensures suit { IfOk result (λ v. EachSuits statements.now first v.items) }
{
    let mut numbers = Vec::with_capacity(alloc, statements.len())?;
    let mut number = first;
    for statement in statements {
        numbers.push(number)?;
        number = number.saturating_add(count_loops(statement));
    }
    Ok(numbers)
}

impl<'t> Lowering<'t> {
    /// The number of the first loop of the statement at a place.
    fn number_at(&self, statements: &[Stmt], numbers: &[u32], place: usize) -> u32
        requires within { place < length statements.now }
        requires each { SuitEach self.now statements.now numbers.now }
        ensures is { result ≡ slice_index numbers.now place }
        ensures suits { SuitsAt self.now statements.now place result }
    {
        numbers.get(place).copied().unwrap_or(0)
    }

    fn lower_set(
        &self,
        target: &'t Occ,
        value: &'t Expr,
        next: usize,
        nodes: &mut Nodes<'t>,
    ) -> Result<usize, AllocError>
        requires below { next < length nodes.now }
        ensures grows { IfOk result (Grows nodes.old nodes.new) }
        ensures adds { IfOk result (AddsPlain self.now (set target.now value.now) nodes.old next nodes.new) }
    {
        let step = Step::Set { target, value };
        let place = nodes.add(Node::Moves { step, next })?;
        let first = self.lower_read(value, place, nodes)?;
        Ok(first)
    }

    fn lower_new(
        &self,
        target: &'t Occ,
        next: usize,
        nodes: &mut Nodes<'t>,
    ) -> Result<usize, AllocError>
        requires below { next < length nodes.now }
        ensures grows { IfOk result (Grows nodes.old nodes.new) }
        ensures adds { IfOk result (AddsPlain self.now (new target.now) nodes.old next nodes.new) }
    {
        let step = Step::New { target };
        let place = nodes.add(Node::Moves { step, next })?;
        Ok(place)
    }

    fn lower_write(
        &self,
        at: &'t Occ,
        value: &'t Expr,
        next: usize,
        nodes: &mut Nodes<'t>,
    ) -> Result<usize, AllocError>
        requires below { next < length nodes.now }
        ensures grows { IfOk result (Grows nodes.old nodes.new) }
        ensures adds { IfOk result (AddsPlain self.now (write at.now value.now) nodes.old next nodes.new) }
    {
        let step = Step::Write { at, value };
        let place = nodes.add(Node::Moves { step, next })?;
        let visit = self.lower_visit(at, place, nodes)?;
        let first = self.lower_read(value, visit, nodes)?;
        Ok(first)
    }

    fn lower_free(
        &self,
        at: &'t Occ,
        next: usize,
        nodes: &mut Nodes<'t>,
    ) -> Result<usize, AllocError>
        requires below { next < length nodes.now }
        ensures grows { IfOk result (Grows nodes.old nodes.new) }
        ensures adds { IfOk result (AddsPlain self.now (free at.now) nodes.old next nodes.new) }
    {
        let step = Step::Free { at };
        let place = nodes.add(Node::Moves { step, next })?;
        let first = self.lower_visit(at, place, nodes)?;
        Ok(first)
    }

    fn lower_call(
        &self,
        targets: &'t [Occ],
        callee: &'t Occ,
        arguments: &'t [Expr],
        next: usize,
        nodes: &mut Nodes<'t>,
    ) -> Result<usize, AllocError>
        requires known { IsKnown (program_in self.now) callee.now.name }
        requires few { AreFew (program_in self.now) }
        requires below { next < length nodes.now }
        ensures grows { IfOk result (Grows nodes.old nodes.new) }
        ensures adds { IfOk result
            (AddsPlain self.now (call targets.now callee.now arguments.now) nodes.old next nodes.new) }
    {
        let number = self.callee(callee);
        let asked = Asked {
            goal: Goal::CalleeEntry {
                callee: number,
                arguments,
            },
            span: callee.span,
        };
        let step = Step::Call {
            targets,
            callee: number,
            arguments,
        };
        let place = nodes.add(Node::Guarded { asked, step, next })?;
        let first = self.lower_reads(arguments, place, nodes)?;
        Ok(first)
    }

    fn lower_give(
        &self,
        span: Span,
        values: &'t [Expr],
        nodes: &mut Nodes<'t>,
    ) -> Result<usize, AllocError>
        ensures grows { IfOk result (Grows nodes.old nodes.new) }
        ensures adds { IfOk result (AddsEnd self.now (return span values.now) nodes.old nodes.new) }
    {
        let goal = Goal::Return;
        let end = nodes.add(Node::Ends {
            asked: Asked { goal, span },
        })?;
        let step = Step::Return { values };
        let place = nodes.add(Node::Moves { step, next: end })?;
        let first = self.lower_reads(values, place, nodes)?;
        Ok(first)
    }

    /// A loop on the way.
    fn lower_pass(
        &self,
        span: Span,
        test: &'t Cond,
        number: u32,
        next: usize,
        nodes: &mut Nodes<'t>,
    ) -> Result<usize, AllocError>
        requires low { number < 65536 }
        requires below { next < length nodes.now }
        ensures grows { IfOk result (Grows nodes.old nodes.new) }
        ensures adds { IfOk result (AddsPass span test.now number nodes.old next nodes.new) }
    {
        let number = number as u16;
        let dead = nodes.add(Node::DeadEnd)?;
        let next = self.lower_test(test, dead, next, nodes)?;
        let goal = Goal::LoopEntry { number };
        let asked = Asked { goal, span };
        let step = Step::Loop { number };
        let place = nodes.add(Node::Guarded { asked, step, next })?;
        Ok(place)
    }

    /// A statement before a node. Its loops have the numbers from `first` on.
    #[cycle(lower_body)]
    fn lower_statement(
        &self,
        alloc: Global,
        statement: &'t Stmt,
        first: u32,
        next: usize,
        nodes: &mut Nodes<'t>,
    ) -> Result<usize, AllocError>
        requires suits { Suits self.now first (statement_of statement.now) }
        requires below { next < length nodes.now }
        ensures grows { IfOk result (Grows nodes.old nodes.new) }
        ensures adds { IfOk result (AddsStatement self.now statement.now first nodes.old next nodes.new) }
    {
        match statement {
            Stmt::Set { target, value } => self.lower_set(target, value, next, nodes),
            Stmt::New { target } => self.lower_new(target, next, nodes),
            Stmt::Write { at, value } => self.lower_write(at, value, next, nodes),
            Stmt::Free { at } => self.lower_free(at, next, nodes),
            Stmt::Call {
                targets,
                callee,
                arguments,
            } => self.lower_call(
                targets.as_slice(),
                callee,
                arguments.as_slice(),
                next,
                nodes,
            ),
            Stmt::If {
                test,
                taken,
                otherwise,
            } => {
                let taken = taken.statements.as_slice();
                let otherwise = otherwise.statements.as_slice();
                let later = first.saturating_add(count_all_loops(taken));
                let yes = self.lower_block(alloc, taken, first, next, nodes)?;
                let no = self.lower_block(alloc, otherwise, later, next, nodes)?;
                self.lower_test(test, yes, no, nodes)
            }
            Stmt::While { span, test, .. } => self.lower_pass(*span, test, first, next, nodes),
            Stmt::Return { span, values } => self.lower_give(*span, values.as_slice(), nodes),
        }
    }

    /// Some statements before a node. Their loops have the numbers from `first` on.
    #[cycle(lower_body)]
    pub(crate) fn lower_block(
        &self,
        alloc: Global,
        statements: &'t [Stmt],
        first: u32,
        next: usize,
        nodes: &mut Nodes<'t>,
    ) -> Result<usize, AllocError>
        requires suits { AllSuit self.now first (statements_view statements.now) }
        requires below { next < length nodes.now }
        ensures grows { IfOk result (Grows nodes.old nodes.new) }
        ensures adds { IfOk result (AddsBlock self.now statements.now first nodes.old next nodes.new) }
    {
        let numbers = first_loops(alloc, statements, first)?;
        let mut place = next;
        let mut left = statements.len();
        while left > 0 {
            left -= 1;
            let number = self.number_at(statements, numbers.as_slice(), left);
            place = self.lower_statement(alloc, &statements[left], number, place, nodes)?;
        }
        Ok(place)
    }
}
