// Errors with their places.

ghost use Rattle.std.specs.Prelude.{◌≡◌, ◌↔◌, IsTrue, false};
ghost use Rattle.gh_types.specs.Faults.{IsEarlier};

use gh_base::place::Span;

/// A broken rule: its number, and where it is broken.
#[derive(Clone, Copy, Debug)]
pub struct Fault {
    pub number: u8,
    pub span: Span,
}

impl Fault {
    ghost use Rattle.gh_types.specs.Faults.{FaultGoesFirst, IsFirstOf};

    /// An error at a place, unless all is well there.
    pub fn unless(well: bool, number: u8, span: Span) -> Option<Fault>
        ensures { IsFirstOf (λ n s. (well ≡ false) × (n ≡ number) × (span ≡ s)) result }
    {
        if well {
            None
        } else {
            Some(Fault { number, span })
        }
    }

    /// Whether this fault is the first of the two: by place, then by number.
    fn goes_first(self, other: Fault) -> bool
        ensures { IsTrue result ↔ FaultGoesFirst self other }
    {
        let (here, there) = (self.span, other.span);
        if here.line != there.line {
            here.line < there.line
        } else if here.col != there.col {
            here.col < there.col
        } else {
            self.number <= other.number
        }
    }
}

/// The first of two faults, where there is one.
pub fn earlier(one: Option<Fault>, other: Option<Fault>) -> Option<Fault>
    ensures { IsEarlier one other result }
{
    let Some(f) = one else {
        return other;
    };
    let Some(g) = other else {
        return one;
    };
    if f.goes_first(g) { one } else { other }
}
