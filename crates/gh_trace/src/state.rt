//! States and traces.

ghost use Rattle.std.specs.Prelude.{◌≡◌, IfOk};

use gh_assert::heap::Heap;
use gh_assert::store::Store;
use std::alloc::{AllocError, Global};

/// The values of the variables of a procedure, in their order, and the cells.
#[derive(Debug, Drop)]
pub struct State {
    pub store: Store,
    pub heap: Heap,
}

impl State {
    /// A copy of the state.
    pub fn copy(&self, alloc: Global) -> Result<State, AllocError>
        ensures { IfOk result (λ s. s ≡ self.now) }
    {
        Ok(State {
            store: self.store.copy(alloc)?,
            heap: self.heap.copy(alloc)?,
        })
    }
}

/// A first state and one for each step of a path.
#[derive(Debug, Drop)]
pub struct Trace {
    pub states: Vec<State>,
}

impl Trace {
    /// A copy of the trace.
    pub fn copy(&self, alloc: Global) -> Result<Trace, AllocError>
        ensures { IfOk result (λ t. t.states.items ≡ self.now.states.items) }
    {
        let mut states = Vec::new(alloc);
        for state in self.states.as_slice() {
            states.push(state.copy(alloc)?)?;
        }
        Ok(Trace { states })
    }
}
