//! A sink in memory, with room for so many bytes, of which listed calls fail.

ghost use Rattle.std.specs.Prelude.{◌<◌, ◌≤◌, length};
ghost use Rattle.std.specs.Vec.{vec_capacity};

mod writes;

use crate::calls::Calls;

/// A sink in memory. Its room is reserved when it is made. A write takes at most `piece` bytes.
#[derive(Drop)]
pub struct MemorySink {
    bytes: Vec<u8>,
    room: usize,
    piece: usize,
    calls: Calls,
    failed: bool,
    ghost some: { 0 < piece },
    ghost within: { length bytes.items ≤ room },
    ghost reserved: { room ≤ vec_capacity bytes },
}
