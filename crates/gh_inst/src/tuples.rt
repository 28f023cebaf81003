//! The tuples of terms in lexicographic order, by one odometer for every length.

ghost use Rattle.std.specs.Prelude.{◌≡◌, ◌<◌, ◌≤◌, ◌^◌, Some, slice_get};
ghost use Rattle.gh_inst.specs.Tuples.{tuples};

use gh_base::atom::Term;

/// The number of tuples of so many terms.
pub(crate) fn tuple_count(terms: u8, variables: u8) -> u32
    requires { variables ≤ 4 }
    ensures { result ≡ terms ^ variables }
{
    let mut count = 1;
    for done in 0..variables {
        let _ = done;
        count *= terms as u32;
    }
    count
}

/// The tuple at a place, of which there are `count`: each wheel of the odometer turns once while the
/// wheel before it makes one step.
pub(crate) fn tuple_at<const V: usize>(place: u32, count: u32, terms: u8) -> [Term; V]
    requires all { count ≡ terms ^ V }
    requires within { place < count }
    ensures { slice_get (tuples V terms) place ≡ Some result }
{
    let mut tuple = [Term(0); V];
    let mut turn = count;
    let mut rest = place;
    for i in 0..V {
        turn /= terms as u32;
        tuple[i] = Term((rest / turn) as u8);
        rest %= turn;
    }
    tuple
}
