// R1, R60: the ways to pose a problem, and what is posed by them.
ghost use Rattle.std.specs.Prelude.{◌≡◌};
ghost use Rattle.orbit.specs.Given as ways;
ghost use Rattle.orbit.specs.Cell.{grid_cell};
ghost use Rattle.orbit.specs.Given.{coded_cell, coded_problem};

use grid::codes::Refusal;
use grid::{Angle, Depth, Eccentricity, codes};
use std::marker::Model;
use units::Units;

// M, and A of the eccentricity A / 2^28.
#[derive(Clone, Copy, Debug, PartialEq, Eq)]
pub struct Cell {
    pub m: Units,
    pub a: Units,
}

impl Model for Cell {
    ghost use Rattle.orbit.specs.Cell as cells;

    ghost Value = { cells.Cell };

    ghost view = { λ c. record { m = c.m; a = c.a } };

    ghost invariant = { λ c. cells.CellIn (record { m = c.m; a = c.a }) };

    ghost inverse = { λ c. record { m = c.m; a = c.a } };
}

// M and A as they are in whole units, beyond a cell's limits too.
#[derive(Clone, Copy, Debug, PartialEq, Eq)]
pub struct AnyCell {
    pub m: Units,
    pub a: Units,
}

impl Model for AnyCell {
    ghost use Rattle.orbit.specs.Cell as cells;

    ghost Value = { cells.Cell };

    ghost view = { λ c. record { m = c.m; a = c.a } };

    ghost inverse = { λ c. record { m = c.m; a = c.a } };
}

impl Cell {
    // Of whole numbers of units, whichever they are.
    pub fn on_grid(m: u32, a: u32) -> AnyCell
        ensures { result ≡ grid_cell m a }
    {
        AnyCell {
            m: Units::from(u64::from(m)),
            a: Units::from(u64::from(a)),
        }
    }
}

// A cell and a depth: what end tests, searches and the judge are asked about.
#[derive(Clone, Copy, Debug, PartialEq, Eq)]
pub struct Problem {
    pub cell: Cell,
    pub depth: Depth,
}

// R59: what is posed, of -M where it is mirrored.
#[derive(Clone, Copy, Debug, PartialEq, Eq)]
pub struct Posed<T> {
    pub mirrored: bool,
    pub of: T,
}

// What a caller gives of an orbit.
pub trait Given {
    ghost given: { Self → ways.Given };

    // R4: the cell, or its code: 1, then 2.
    fn pose(self) -> Result<Posed<Cell>, Refusal>
        ensures { result ≡ coded_cell (given self) };
}

// R1: M and A in units.
#[derive(Clone, Copy, Debug, PartialEq, Eq)]
pub struct Grid {
    pub m: i32,
    pub a: u32,
}

// R59: a negative M is posed as -M, mirrored.
impl Given for Grid {
    ghost given = { λ g. ways.grid g.m g.a };

    fn pose(self) -> Result<Posed<Cell>, Refusal> {
        let size = codes::limited(whole::size(self.m), Angle::H, Refusal::BadM)?;
        Eccentricity::try_from(self.a)?;
        let known = Cell::on_grid(size, self.a);
        Ok(Posed {
            mirrored: whole::negative(self.m),
            of: Cell {
                m: known.m,
                a: known.a,
            },
        })
    }
}

// R60: M in radians and e, as doubles.
#[derive(Clone, Copy, Debug)]
pub struct Doubles {
    pub m: f64,
    pub e: f64,
}

// R60: each is rounded down and up. Either zero is 0; a NaN is below nothing, and gets its code.
impl Given for Doubles {
    ghost given = { λ g. ways.doubles g.m g.e };

    fn pose(self) -> Result<Posed<Cell>, Refusal> {
        let mirrored = units::is_below_zero(self.m);
        let size = units::mirror(self.m, mirrored);
        let m = units::in_units(size, Angle::H, Refusal::BadM)?;
        let a = units::in_units(self.e, Eccentricity::ONE, Refusal::BadA)?;
        Ok(Posed {
            mirrored,
            of: Cell { m, a },
        })
    }
}

impl Problem {
    // R4: the problem of whatever is given at a depth, or its code: 1, 2, then 3.
    pub fn pose<G: Given>(given: G, depth: u32) -> Result<Posed<Problem>, Refusal>
        ensures { result ≡ coded_problem (G.given given) depth }
    {
        let posed = given.pose()?;
        let depth = Depth::try_from(depth)?;
        let cell = posed.of;
        Ok(Posed {
            mirrored: posed.mirrored,
            of: Problem { cell, depth },
        })
    }
}
