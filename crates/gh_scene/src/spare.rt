// What is left over where the check at the end of a path fails.

ghost use Rattle.std.specs.Prelude.{map, IfOk};
ghost use Rattle.gh_ast.specs.Plain.{assertion_of};
ghost use Rattle.gh_assert.specs.Stores.{store_of};
ghost use Rattle.gh_trace.specs.Settings.{HasLoops};
ghost use Rattle.gh_scene.specs.Spare as told;

use gh_assert::heap::Heap;
use gh_assert::store::Store;
use gh_ast::Assertion;
use gh_lens::taking::{Taking, conjuncts, taken};
use gh_path::condition::CheckKind;
use gh_trace::setting::Setting;
use gh_trace::state::State;
use std::alloc::{AllocError, Global};
use std::slice::from_ref;

// What the conjuncts of an assertion leave, if all take their parts.
fn left_by(
    alloc: Global,
    store: &Store,
    heap: &Heap,
    assertion: &Assertion,
) -> Result<Option<Heap>, AllocError>
    ensures some { IfOk result (told.IsLeft (assertion_of assertion.now) (store_of store.now) heap.now) }
    ensures none { IfOk result (told.IsNoneLeft (assertion_of assertion.now) (store_of store.now) heap.now) }
{
    match taken(alloc, store, heap, conjuncts(assertion))? {
        Taking::Whole { rest } => Ok(Some(rest)),
        Taking::Blocked { .. } => Ok(None),
    }
}

/// What the first of some alternatives leaves whose conjuncts all take their parts; nothing, where there
/// is none.
pub fn left_over(
    alloc: Global,
    store: &Store,
    heap: &Heap,
    alternatives: &[Assertion],
) -> Result<Heap, AllocError>
    ensures { IfOk result (told.IsLeftOver (map assertion_of alternatives.now) (store_of store.now) heap.now) }
{
    for alternative in alternatives {
        if let Some(rest) = left_by(alloc, store, heap, alternative)? {
            return Ok(rest);
        }
    }
    Ok(Heap::new(alloc))
}

// What is left over at the end of a round of a loop.
fn left_of_round(
    alloc: Global,
    setting: Setting<'_>,
    number: u16,
    state: &State,
) -> Result<Heap, AllocError>
    requires { HasLoops setting }
    ensures { IfOk result (told.IsSpareOfLoop setting.entry number state.now) }
{
    match setting.round(number) {
        Some(round) => left_over(alloc, &state.store, &state.heap, from_ref(round.invariant)),
        None => Ok(Heap::new(alloc)),
    }
}

/// The cells of a state that are left over at a check.
pub fn spare(
    alloc: Global,
    setting: Setting<'_>,
    kind: &CheckKind,
    state: &State,
) -> Result<Heap, AllocError>
    requires { HasLoops setting }
    ensures { IfOk result (told.IsSpareAt setting.entry kind.now state.now) }
{
    match kind {
        CheckKind::Access { .. } => Ok(Heap::new(alloc)),
        CheckKind::CalleeEntry { .. } => Ok(Heap::new(alloc)),
        CheckKind::LoopEntry { .. } => Ok(Heap::new(alloc)),
        CheckKind::Return => left_over(
            alloc,
            &state.store,
            &state.heap,
            setting.procedure.gives.as_slice(),
        ),
        CheckKind::LoopEnd { number } => left_of_round(alloc, setting, *number, state),
    }
}
