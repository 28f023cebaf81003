//! Contradictions among asserted literals.

/// Asserted literals that contradict each other, by their places.
#[derive(Clone, Copy, Debug, PartialEq, Eq)]
pub enum Clash {
    /// A negated equality of terms of one class.
    Unequal { place: u32 },
    /// Two literals of opposite signs over terms of the same classes.
    Opposite { first: u32, second: u32 },
}
