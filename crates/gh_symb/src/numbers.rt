//! Terms and versions as small numbers.

ghost use Rattle.std.specs.Prelude.{◌≡◌, ◌<◌};

use gh_base::atom::Term;

/// A number as one of 8 bits, where it has no more. The terms and versions of a condition that keeps the limits
/// have no more.
pub fn short(number: usize) -> u8
    ensures { number < 256 → result ≡ number }
{
    if number < 256 {
        return number as u8;
    }
    u8::MAX
}

/// The term of a number.
pub fn term_of(number: usize) -> Term
    ensures { number < 256 → result.0 ≡ number }
{
    Term(short(number))
}
