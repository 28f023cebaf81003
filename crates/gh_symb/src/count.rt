//! How many terms and versions of the heap a condition has.

ghost use Rattle.std.specs.Prelude.{◌≡◌};
ghost use Rattle.gh_ast.specs.Plain.{Procedure, Program};
ghost use Rattle.gh_path.specs.Conditions.{Condition};
ghost use Rattle.gh_symb.specs.Limits.{PassesNone};
ghost use Rattle.gh_symb.specs.Numbers.{count_of, no_count};
ghost use Rattle.gh_symb.specs.Steps.{IsCount, IsCountOf};

/// The most terms that a condition may have.
pub const MOST_TERMS: usize = 32;

/// The most versions of the heap that a condition may have.
pub const MOST_VERSIONS: usize = 24;

/// The number of terms of a condition, and that of its versions of the heap; or that it has more
/// than `MOST_TERMS` terms.
#[derive(Clone, Copy, Debug, PartialEq, Eq)]
pub enum Counted {
    Within { terms: u8, versions: usize },
    ManyTerms,
}

/// The number of terms and that of versions of the heap of a condition that keeps the limits.
#[derive(Clone, Copy, Debug, PartialEq, Eq)]
pub struct Count {
    pub terms: u8,
    pub versions: u8,
}

impl Counted {
    /// The numbers where the limits are kept, else zeros.
    pub(crate) fn count(self) -> Count
        ensures kept { (P : Program) (proc : Procedure) (c : Condition) → IsCount P proc c self →
            PassesNone P proc c → result ≡ count_of P proc c }
        ensures zeros { (P : Program) (proc : Procedure) (c : Condition) → IsCount P proc c self →
            (PassesNone P proc c → ⊥) → result ≡ no_count }
    {
        match self {
            Counted::Within { terms, versions } => {
                if versions > MOST_VERSIONS {
                    return Count {
                        terms: 0,
                        versions: 0,
                    };
                }
                Count {
                    terms,
                    versions: versions as u8,
                }
            }
            Counted::ManyTerms => Count {
                terms: 0,
                versions: 0,
            },
        }
    }

    /// These numbers, unless there are too many terms.
    pub(crate) fn new(terms: usize, versions: usize) -> Counted
        ensures { IsCountOf terms versions result }
    {
        if terms > MOST_TERMS {
            return Counted::ManyTerms;
        }
        Counted::Within {
            terms: terms as u8,
            versions,
        }
    }
}
