//! Configurations: a heap and a stack of procedures at work.

ghost use Rattle.std.specs.Prelude.{◌≡◌, ◌<◌, IfOk, length};
ghost use Rattle.gh_ast.specs.Plain.{program_of};
ghost use Rattle.gh_assert.specs.Stores.{store_of};
ghost use Rattle.gh_machine.specs.Configs.{AreArguments, AreStarts, IsBeginningOf, IsMadeFor, config_of};

use crate::rest::Rest;
use crate::stores::enter;
use gh_assert::heap::Heap;
use gh_assert::store::Store;
use gh_ast::Procedure;
use gh_ast::typed::Typed;
use std::alloc::{AllocError, Global};

/// A procedure at work: its variables, and what it has still to do.
#[derive(Drop)]
pub struct Activation<'p> {
    pub(crate) procedure: &'p Procedure,
    pub(crate) store: Store,
    pub(crate) rest: Rest<'p>,
}

/// A heap, the procedure at work, and those that wait, the nearest caller last. What is still to run
/// is kept as places in the program, of which nothing is copied.
#[derive(Drop)]
pub struct Config<'p> {
    pub(crate) heap: Heap,
    pub(crate) top: Activation<'p>,
    pub(crate) below: Vec<Activation<'p>>,
}

impl<'p> Config<'p> {
    /// The procedure of a number at its start, with the values of its parameters, and then those of its
    /// results and locals in their order.
    pub fn start(
        alloc: Global,
        typed: &'p Typed,
        procedure: u16,
        arguments: &[u32],
        starts: &[u32],
        heap: Heap,
    ) -> Result<Config<'p>, AllocError>
        requires there { procedure < length typed.now.procedures.items }
        requires arguments { AreArguments (program_of typed.now) procedure arguments.now }
        requires starts { AreStarts (program_of typed.now) procedure starts.now }
        ensures start { IfOk result (λ c. IsBeginningOf (program_of typed.now) procedure arguments.now starts.now heap c) }
        ensures made { IfOk result (λ c. IsMadeFor (program_of typed.now) c) }
    {
        let procedure = &typed.program().procedures[usize::from(procedure)];
        let top = enter(alloc, procedure, arguments, starts)?;
        Ok(Config {
            heap,
            top,
            below: Vec::new(alloc),
        })
    }

    /// The heap.
    pub fn heap(&self) -> &Heap
        ensures { result.now ≡ (config_of self.now).heap }
    {
        &self.heap
    }

    /// The variables of the procedure at work, in their order.
    pub fn store(&self) -> &Store
        ensures same { result.now ≡ self.now.top.store }
        ensures values { store_of result.now ≡ (config_of self.now).top.store }
    {
        &self.top.store
    }
}
