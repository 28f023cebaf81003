//! The type rules and the kinds of limits by their names.

ghost use Rattle.std.specs.Prelude.{◌≡◌, Some};
ghost use Rattle.gh_top.specs.Rules.{kind_name, kind_of, rule_name, rule_of};

use std::fmt;

/// A type rule. The numbers of type errors are 1 to 12, in this order.
#[derive(Clone, Copy, Debug, PartialEq, Eq)]
pub enum Rule {
    UnknownName,
    DuplicateName,
    AssignToParameter,
    WrongCount,
    ReturnInLoop,
    UnknownProcedure,
    SecondLink,
    DataField,
    NameOutOfContract,
    RepeatedResult,
    NoBody,
    NoLink,
}

impl Rule {
    /// The rule of a type error's number.
    pub fn numbered(number: u8) -> Rule
        ensures { result ≡ rule_of number }
    {
        match number {
            1 => Rule::UnknownName,
            2 => Rule::DuplicateName,
            3 => Rule::AssignToParameter,
            4 => Rule::WrongCount,
            5 => Rule::ReturnInLoop,
            6 => Rule::UnknownProcedure,
            7 => Rule::SecondLink,
            8 => Rule::DataField,
            9 => Rule::NameOutOfContract,
            10 => Rule::RepeatedResult,
            11 => Rule::NoBody,
            _ => Rule::NoLink,
        }
    }
}

impl fmt::Display for Rule {
    ghost output = { λ rule. Some (rule_name rule) };

    fn fmt<W: fmt::Write>(&self, f: &mut fmt::Formatter<W>) -> fmt::Result {
        f.write_str(match self {
            Rule::UnknownName => "UnknownName",
            Rule::DuplicateName => "DuplicateName",
            Rule::AssignToParameter => "AssignToParameter",
            Rule::WrongCount => "WrongCount",
            Rule::ReturnInLoop => "ReturnInLoop",
            Rule::UnknownProcedure => "UnknownProcedure",
            Rule::SecondLink => "SecondLink",
            Rule::DataField => "DataField",
            Rule::NameOutOfContract => "NameOutOfContract",
            Rule::RepeatedResult => "RepeatedResult",
            Rule::NoBody => "NoBody",
            Rule::NoLink => "NoLink",
        })
    }
}

/// What a limit counts. The numbers of kinds are 1 to 7, in this order.
#[derive(Clone, Copy, Debug, PartialEq, Eq)]
pub enum LimitKind {
    Procedures,
    Variables,
    Atoms,
    Paths,
    Steps,
    Terms,
    Versions,
}

impl LimitKind {
    /// What the limit of a number counts.
    pub fn numbered(number: u8) -> LimitKind
        ensures { result ≡ kind_of number }
    {
        match number {
            1 => LimitKind::Procedures,
            2 => LimitKind::Variables,
            3 => LimitKind::Atoms,
            4 => LimitKind::Paths,
            5 => LimitKind::Steps,
            6 => LimitKind::Terms,
            _ => LimitKind::Versions,
        }
    }
}

impl fmt::Display for LimitKind {
    ghost output = { λ kind. Some (kind_name kind) };

    fn fmt<W: fmt::Write>(&self, f: &mut fmt::Formatter<W>) -> fmt::Result {
        f.write_str(match self {
            LimitKind::Procedures => "procedures",
            LimitKind::Variables => "variables",
            LimitKind::Atoms => "atoms",
            LimitKind::Paths => "paths",
            LimitKind::Steps => "steps",
            LimitKind::Terms => "terms",
            LimitKind::Versions => "versions",
        })
    }
}
