//! Who is told how many conditions are settled.

/// Takes how many of all conditions are settled. Nothing that is found depends on it.
pub trait Progress {
    /// `done` of all `count` conditions are settled.
    fn settled(&mut self, done: u32, count: u32);
}

/// Tells nobody.
#[derive(Clone, Copy, Debug)]
pub struct Silent;

impl Progress for Silent {
    fn settled(&mut self, _done: u32, _count: u32) {}
}
