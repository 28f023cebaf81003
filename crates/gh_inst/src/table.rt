//! The table of axiom rows.

ghost use Rattle.std.specs.Prelude.{◌≡◌, option_map};
ghost use Rattle.gh_inst.specs.Schemas.{IsSchema};
ghost use Rattle.gh_inst.specs.Table.{row_with, table, row_of, variables_of, lits_of};

use crate::schema::{Pattern, Schema, Shape};

/// A row, by its numbers of variables and literals.
#[derive(Drop)]
pub(crate) enum Row {
    OneOne(Schema<1, 1>),
    TwoTwo(Schema<2, 2>),
    TwoThree(Schema<2, 3>),
    ThreeTwo(Schema<3, 2>),
    ThreeThree(Schema<3, 3>),
    ThreeFour(Schema<3, 4>),
    FourThree(Schema<4, 3>),
}

impl Row {
    /// The number of variables.
    pub(crate) fn variables(&self) -> u8
        ensures { result ≡ variables_of self.now }
    {
        match self {
            Row::OneOne(_) => 1,
            Row::TwoTwo(_) | Row::TwoThree(_) => 2,
            Row::ThreeTwo(_) | Row::ThreeThree(_) | Row::ThreeFour(_) => 3,
            Row::FourThree(_) => 4,
        }
    }

    /// The literals.
    pub(crate) fn lits(&self) -> &[Pattern]
        ensures list { result.now ≡ lits_of self.now }
        ensures schema { IsSchema (variables_of self.now) (lits_of self.now) }
    {
        match self {
            Row::OneOne(schema) => &schema.lits,
            Row::TwoTwo(schema) => &schema.lits,
            Row::TwoThree(schema) => &schema.lits,
            Row::ThreeTwo(schema) => &schema.lits,
            Row::ThreeThree(schema) => &schema.lits,
            Row::ThreeFour(schema) => &schema.lits,
            Row::FourThree(schema) => &schema.lits,
        }
    }
}

macro_rules! pattern {
    (+ Equal $a:literal $b:literal) => {
        pattern!(true Equal $a $b 0)
    };
    (- Equal $a:literal $b:literal) => {
        pattern!(false Equal $a $b 0)
    };
    (+ Btwn $a:literal $b:literal $c:literal) => {
        pattern!(true Btwn $a $b $c)
    };
    (- Btwn $a:literal $b:literal $c:literal) => {
        pattern!(false Btwn $a $b $c)
    };
    (+ Hop $a:literal $b:literal) => {
        pattern!(true Hop $a $b 0)
    };
    (- Hop $a:literal $b:literal) => {
        pattern!(false Hop $a $b 0)
    };
    (+ Alloc $a:literal) => {
        pattern!(true Alloc $a 0 0)
    };
    (- Alloc $a:literal) => {
        pattern!(false Alloc $a 0 0)
    };
    ($positive:literal $shape:ident $a:literal $b:literal $c:literal) => {
        Pattern {
            shape: Shape::$shape,
            positive: $positive,
            places: [$a, $b, $c],
        }
    };
}

macro_rules! row {
    ($kind:ident: $($sign:tt $shape:ident $($place:literal)+),+) => {
        Some(Row::$kind(Schema::new([$(pattern!($sign $shape $($place)+)),+])))
    };
}

/// The row of a number, from 1.
pub(crate) fn row_numbered(number: u8) -> Option<Row>
    ensures { row_with number table ≡ option_map (row_of number) result }
{
    match number {
        1 => row!(OneOne: + Btwn 0 0 0),
        2 => row!(TwoTwo: - Btwn 0 1 0, + Equal 0 1),
        3 => row!(ThreeFour: - Btwn 0 1 1, - Btwn 0 2 2, + Btwn 0 1 2, + Btwn 0 2 1),
        4 => row!(ThreeTwo: - Btwn 0 1 2, + Btwn 0 1 1),
        5 => row!(ThreeTwo: - Btwn 0 1 2, + Btwn 1 2 2),
        6 => row!(ThreeThree: - Btwn 0 1 1, - Btwn 1 2 2, + Btwn 0 2 2),
        7 => row!(FourThree: - Btwn 0 1 3, - Btwn 1 2 3, + Btwn 0 1 2),
        8 => row!(FourThree: - Btwn 0 1 3, - Btwn 1 2 3, + Btwn 0 2 3),
        9 => row!(FourThree: - Btwn 0 1 3, - Btwn 0 2 1, + Btwn 0 2 3),
        10 => row!(FourThree: - Btwn 0 1 3, - Btwn 0 2 1, + Btwn 2 1 3),
        11 => row!(TwoTwo: - Hop 0 1, + Btwn 0 1 1),
        12 => row!(ThreeFour: - Hop 0 1, - Btwn 0 2 2, + Equal 2 0, + Btwn 0 1 2),
        13 => row!(TwoThree: + Alloc 0, - Btwn 0 1 1, + Equal 0 1),
        14 => row!(TwoThree: - Hop 0 0, - Btwn 0 1 1, + Equal 1 0),
        15 => row!(TwoTwo: - Hop 0 1, + Alloc 0),
        _ => None,
    }
}
