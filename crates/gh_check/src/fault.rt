//! What is wrong with a section.

ghost use Rattle.std.specs.Prelude.{◌≡◌, Some};
ghost use Rattle.gh_check.specs.Names.{fault_at, fault_kind, fault_name, fault_number};

use std::alloc::{AllocError, AllocFailed};
use std::fmt;
use thiserror::Error;

/// What is wrong with a line: it is no instance, no ground clause's number, no clause of equality
/// and congruence; an atom is out of range, or unit propagation doesn't show its clause; its hints
/// or deleted positions don't all stand, or it deletes one twice. `NoEmptyClause` is a section with
/// no fault but that it doesn't end in the empty clause.
#[derive(Clone, Copy, Debug, PartialEq, Eq)]
pub enum FaultKind {
    NotInstance,
    NotClause,
    NotLemma,
    NotImplied,
    NoEmptyClause,
    NoSuchLine,
}

impl FaultKind {
    /// The number of the fault, from 1.
    pub fn number(self) -> u8
        ensures { result ≡ fault_number self }
    {
        match self {
            FaultKind::NotInstance => 1,
            FaultKind::NotClause => 2,
            FaultKind::NotLemma => 3,
            FaultKind::NotImplied => 4,
            FaultKind::NoEmptyClause => 5,
            FaultKind::NoSuchLine => 6,
        }
    }
}

impl fmt::Display for FaultKind {
    ghost output = { λ kind. Some (fault_name kind) };

    fn fmt<W: fmt::Write>(&self, f: &mut fmt::Formatter<W>) -> fmt::Result {
        f.write_str(match self {
            FaultKind::NotInstance => "NotInstance",
            FaultKind::NotClause => "NotClause",
            FaultKind::NotLemma => "NotLemma",
            FaultKind::NotImplied => "NotImplied",
            FaultKind::NoEmptyClause => "NoEmptyClause",
            FaultKind::NoSuchLine => "NoSuchLine",
        })
    }
}

/// The first line that isn't of its kind, by its number in the file, with the number of its fault.
/// A section that doesn't end in the empty clause has the number of the line after it.
#[derive(Clone, Copy, Debug, PartialEq, Eq)]
pub struct LogFault {
    pub number: u8,
    pub line: u32,
}

/// Why a section isn't found valid.
#[derive(Debug, Drop, Error)]
pub enum CheckError {
    #[error("a line is faulty")]
    Fault(LogFault),
    #[error("out of memory")]
    OutOfMemory,
}

impl From<AllocError> for CheckError {
    ghost use Rattle.gh_check.specs.declared.fault.CheckError.TheVariants.{OutOfMemory};

    ghost from_gives = { λ _ e. e ≡ OutOfMemory };

    fn from(_: AllocError) -> Self {
        CheckError::OutOfMemory
    }
}

impl<T: Drop> From<AllocFailed<T>> for CheckError {
    ghost use Rattle.gh_check.specs.declared.fault.CheckError.TheVariants.{OutOfMemory};

    ghost from_gives = { λ _ e. e ≡ OutOfMemory };

    fn from(_: AllocFailed<T>) -> Self {
        CheckError::OutOfMemory
    }
}

impl LogFault {
    /// A fault of a line.
    pub(crate) fn new(kind: FaultKind, line: u32) -> LogFault
        ensures { result ≡ fault_at kind line }
    {
        LogFault {
            number: kind.number(),
            line,
        }
    }

    /// What is wrong, by the number. A number that is no fault's gives `NoSuchLine`.
    pub fn kind(self) -> FaultKind
        ensures { result ≡ fault_kind self.number }
    {
        match self.number {
            1 => FaultKind::NotInstance,
            2 => FaultKind::NotClause,
            3 => FaultKind::NotLemma,
            4 => FaultKind::NotImplied,
            5 => FaultKind::NoEmptyClause,
            _ => FaultKind::NoSuchLine,
        }
    }
}
