// A unit by its ends: what ranks, letters and draws a unit asks for no more.
ghost use Rattle.std.specs.Prelude.{◌≡◌};
ghost use Rattle.cip_mol.specs.Ends.{as_site, between_in, between_of};

use crate::lists::ligands::Ligands;
use crate::site::Site;

/// An end of a unit: a centre, or an atom at an end of a bond or an axis, with the ligands that are ranked there.
#[derive(Clone, Copy)]
pub struct End<'a> {
    pub at: u32,
    pub ligands: &'a Ligands,
}

/// How the ligands of two ends lie: flat in one plane, as at a double bond, or crossed, as at an allene.
#[derive(Clone, Copy)]
pub enum Shape {
    Flat,
    Crossed,
}

/// Two ends, and the atom between them where one is known.
#[derive(Clone, Copy)]
pub struct TwoEnds<'a> {
    pub nearer: End<'a>,
    pub far: End<'a>,
    pub between: Option<u32>,
}

/// The ends of a unit: one of a centre, two of any other unit.
#[derive(Clone, Copy)]
pub enum Ends<'a> {
    One(End<'a>),
    Two(Shape, TwoEnds<'a>),
}

impl<'a> TwoEnds<'a> {
    /// Two ends by their atoms and ligands, and what lies between them.
    pub fn of(
        a: u32,
        first: &'a Ligands,
        between: Option<u32>,
        b: u32,
        second: &'a Ligands,
    ) -> TwoEnds<'a>
        ensures nearer { (result.nearer.at ≡ a) × (result.nearer.ligands.now ≡ first.now) }
        ensures far { (result.far.at ≡ b) × (result.far.ligands.now ≡ second.now) }
        ensures between { result.between ≡ between }
    {
        TwoEnds {
            nearer: End {
                at: a,
                ligands: first,
            },
            far: End {
                at: b,
                ligands: second,
            },
            between,
        }
    }

    /// The same from the other end.
    pub fn reversed(&self) -> TwoEnds<'a>
        ensures { result ≡ record { nearer = self.now.far; far = self.now.nearer; between = self.now.between } }
    {
        TwoEnds {
            nearer: self.far,
            far: self.nearer,
            between: self.between,
        }
    }
}

impl<'a> Ends<'a> {
    /// A site with these ends. It takes no memory.
    pub fn site(&self) -> Site
        ensures { result ≡ as_site self.now }
    {
        match self {
            Ends::One(end) => Site::Centre {
                at: end.at,
                ligands: end.ligands.copy(),
            },
            Ends::Two(Shape::Flat, two) => Site::Bond {
                a: two.nearer.at,
                b: two.far.at,
                first: two.nearer.ligands.copy(),
                second: two.far.ligands.copy(),
            },
            Ends::Two(Shape::Crossed, two) => Site::Axis {
                a: two.nearer.at,
                middle: two.between.unwrap_or(two.nearer.at),
                b: two.far.at,
                first: two.nearer.ligands.copy(),
                second: two.far.ligands.copy(),
            },
        }
    }
}

impl Site {
    /// The ends of a site, the first one nearer.
    pub fn ends(&self) -> Ends<'_>
        ensures site { as_site result ≡ self.now }
        ensures between { between_in result ≡ between_of self.now }
    {
        match self {
            Site::Centre { at, ligands } => Ends::One(End { at: *at, ligands }),
            Site::Bond {
                a,
                b,
                first,
                second,
            } => Ends::Two(Shape::Flat, TwoEnds::of(*a, first, None, *b, second)),
            Site::Axis {
                a,
                middle,
                b,
                first,
                second,
            } => Ends::Two(
                Shape::Crossed,
                TwoEnds::of(*a, first, Some(*middle), *b, second),
            ),
        }
    }

    /// The same site once more. It takes no memory.
    pub fn copy(&self) -> Site
        ensures { result ≡ self.now }
    {
        self.ends().site()
    }
}
