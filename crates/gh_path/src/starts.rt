//! The starts of the procedures of a program, with their nodes.

ghost use Rattle.std.specs.Prelude.{◌≡◌, ◌+◌, ◌≤◌, ◌∷◌, [], List, slice_get, IfOk, IfSome, OnOk};
ghost use Rattle.gh_ast.specs.Limits.{AreFew};
ghost use Rattle.gh_ast.specs.Plain.{Program as Plain, program_of};
ghost use Rattle.gh_ast.specs.Programs.{body_statements};
ghost use Rattle.gh_ast.specs.Rules.{IsTyped};
ghost use Rattle.gh_ast.specs.WellFormed.{IsFormedBody, IsWellFormed};
ghost use Rattle.gh_path.specs.Graphs.{graph_from, at_entry, once_around};
ghost use Rattle.gh_path.specs.Admitted.{HasManyPaths, HasFewPaths, NoneHas};
ghost use Rattle.gh_path.specs.Callees.{AllCallsAreKnown};
ghost use Rattle.gh_path.specs.Conditions.{conditions};
ghost use Rattle.gh_path.specs.Lowered.{program_in, procedure_in, AllSuit};
ghost use Rattle.gh_path.specs.Shown.{AddsNodes};
ghost use Rattle.gh_path.specs.Roots.{AreStarts, AddsProcedure, AddsEntry, AddsLoop, IsSoughtIn};
ghost use Rattle.gh_path.specs.Walking.{loop_of};
ghost use Rattle.gh_path.specs.declared.starts.Root.{Root as Kept};

use crate::condition::Start;
use crate::counts::{entry_ahead, loop_ahead};
use crate::loops::{While, loops_of, statements_of};
use crate::lowering::Lowering;
use crate::node::{Asked, Goal, Node, Nodes};
use gh_ast::Program;
use std::alloc::{AllocError, Global};

/// A start of a procedure, the place of its first node, and how many conditions it has.
#[derive(Clone, Copy, Debug)]
pub struct Root {
    pub procedure: u16,
    pub start: Start,
    pub node: usize,
    pub count: u32,
}

/// Where a condition stands: its start, the place of the start after that, and how many conditions
/// of the start stand before it.
#[derive(Clone, Copy, Debug)]
pub struct Sought {
    pub root: Root,
    pub next: usize,
    pub before: u32,
}

/// The nodes of the bodies of a program, and the starts in order.
#[derive(Debug, Drop)]
pub struct Starts<'t> {
    pub nodes: Nodes<'t>,
    pub roots: Vec<Root>,
}

impl<'t> Lowering<'t> {
    /// The nodes from the entry on.
    fn lower_entry(&self, alloc: Global, nodes: &mut Nodes<'t>) -> Result<usize, AllocError>
        requires { AllSuit self.now 0 (body_statements (procedure_in self.now)) }
        ensures { IfOk result (λ i.
            AddsNodes nodes.old nodes.new i (graph_from (program_in self.now) (procedure_in self.now) at_entry)) }
    {
        let goal = Goal::Return;
        let span = self.procedure.close;
        let end = nodes.add(Node::Ends {
            asked: Asked { goal, span },
        })?;
        let statements = statements_of(self.procedure);
        let place = self.lower_block(alloc, statements, 0, end, nodes)?;
        Ok(place)
    }

    /// The nodes of once around a loop.
    fn lower_round(
        &self,
        alloc: Global,
        turn: &While<'t>,
        number: u16,
        nodes: &mut Nodes<'t>,
    ) -> Result<usize, AllocError>
        requires { AllSuit self.now (number + 1) (loop_of turn.now).body }
        ensures { IfOk result (λ i.
            AddsNodes nodes.old nodes.new i (once_around (program_in self.now) number (loop_of turn.now))) }
    {
        let goal = Goal::LoopEnd { number };
        let span = turn.body.close;
        let end = nodes.add(Node::Ends {
            asked: Asked { goal, span },
        })?;
        let statements = turn.body.statements.as_slice();
        let first = u32::from(number) + 1;
        let inside = self.lower_block(alloc, statements, first, end, nodes)?;
        let dead = nodes.add(Node::DeadEnd)?;
        let place = self.lower_test(turn.test, inside, dead, nodes)?;
        Ok(place)
    }
}

impl<'t> Starts<'t> {
    /// No starts.
    fn new(alloc: Global) -> Starts<'t>
        ensures { (P : Plain) → AreStarts P result [] }
    {
        Starts {
            nodes: Nodes::new(alloc),
            roots: Vec::new(alloc),
        }
    }

    /// The first start. Where there is none, nothing is said of what is given.
    pub(crate) fn first(&self) -> Root
        ensures { (r : Kept) (rs : List Kept) → self.now.roots.items ≡ r ∷ rs → result ≡ r }
    {
        match self.roots.first() {
            Some(root) => *root,
            None => Root {
                procedure: 0,
                start: Start::Entry,
                node: 0,
                count: 0,
            },
        }
    }

    /// The start at a place, if there is one.
    pub(crate) fn root(&self, place: usize) -> Option<Root>
        ensures { result ≡ slice_get self.now.roots.items place }
    {
        self.roots.get(place).copied()
    }

    /// Where the condition of a place stands, if there is one. Places begin at 0.
    pub(crate) fn seek(&self, place: u32) -> Option<Sought>
        ensures is { IsSoughtIn self.now place result }
        ensures low { IfSome result (λ s. s.before ≤ place) }
    {
        let mut before = place;
        for (index, root) in self.roots.as_slice().iter().enumerate() {
            if before < root.count {
                return Some(Sought {
                    root: *root,
                    next: index + 1,
                    before,
                });
            }
            before -= root.count;
        }
        None
    }

    /// Adds the entry of a procedure, which has a number.
    fn add_entry(
        &mut self,
        alloc: Global,
        lowering: &Lowering<'t>,
        procedure: u16,
    ) -> Result<(), AllocError>
        requires suits { AllSuit lowering.now 0 (body_statements (procedure_in lowering.now)) }
        requires few { HasFewPaths (program_in lowering.now) (procedure_in lowering.now) }
        ensures { OnOk result (AddsEntry lowering.now procedure self.old self.new) }
    {
        let node = lowering.lower_entry(alloc, &mut self.nodes)?;
        let start = Start::Entry;
        let count = entry_ahead(lowering.procedure).count;
        self.roots.push(Root {
            procedure,
            start,
            node,
            count,
        })?;
        Ok(())
    }

    /// Adds a loop of a procedure, both with their numbers.
    fn add_round(
        &mut self,
        alloc: Global,
        lowering: &Lowering<'t>,
        procedure: u16,
        turn: &While<'t>,
        number: u16,
    ) -> Result<(), AllocError>
        requires suits { AllSuit lowering.now (number + 1) (loop_of turn.now).body }
        requires few { HasFewPaths (program_in lowering.now) (procedure_in lowering.now) }
        ensures { OnOk result (AddsLoop lowering.now procedure number (loop_of turn.now) self.old self.new) }
    {
        let node = lowering.lower_round(alloc, turn, number, &mut self.nodes)?;
        let start = Start::Loop { number };
        let count = loop_ahead(turn).count;
        self.roots.push(Root {
            procedure,
            start,
            node,
            count,
        })?;
        Ok(())
    }

    /// Adds the starts of the procedure of a number.
    fn add_procedure(
        &mut self,
        alloc: Global,
        lowering: &Lowering<'t>,
        procedure: u16,
    ) -> Result<(), AllocError>
        requires procedures { AreFew (program_in lowering.now) }
        requires callees { AllCallsAreKnown (program_in lowering.now) (body_statements (procedure_in lowering.now)) }
        requires few { HasFewPaths (program_in lowering.now) (procedure_in lowering.now) }
        requires formed { IsFormedBody (procedure_in lowering.now).body }
        ensures { OnOk result (AddsProcedure lowering.now procedure self.old self.new) }
    {
        self.add_entry(alloc, lowering, procedure)?;
        let turns = loops_of(alloc, lowering.procedure)?;
        for (place, turn) in turns.as_slice().iter().enumerate() {
            self.add_round(alloc, lowering, procedure, turn, place as u16)?;
        }
        Ok(())
    }
}

/// The starts of a program.
pub fn starts_of(alloc: Global, program: &Program) -> Result<Starts<'_>, AllocError>
    requires typed { IsTyped (program_of program.now) }
    requires procedures { AreFew (program_of program.now) }
    requires formed { IsWellFormed (program_of program.now) }
    requires paths { NoneHas (program_of program.now) (HasManyPaths (program_of program.now)) }
    ensures { IfOk result (λ s. AreStarts (program_of program.now) s (conditions (program_of program.now))) }
{
    let mut starts = Starts::new(alloc);
    for (index, procedure) in program.procedures.as_slice().iter().enumerate() {
        let lowering = Lowering { program, procedure };
        starts.add_procedure(alloc, &lowering, index as u16)?;
    }
    Ok(starts)
}
