//! Inputs in memory, of which listed calls fail.

ghost use Rattle.std.specs.Prelude.{◌<◌};

mod inputs;

use crate::calls::Calls;
use crate::files::Files;

/// Inputs in memory. A read gives at most `piece` bytes.
#[derive(Drop)]
pub struct MemoryInputs {
    files: Files,
    piece: usize,
    calls: Calls,
    ghost some: { 0 < piece },
}
