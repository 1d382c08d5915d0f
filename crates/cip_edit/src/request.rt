// The mark of a centre, and why no mark gives it the asked letter.

use cip_mol::{CentreLetter, Mark};
use cip_rank::Rules;

/// A letter that is asked for the centre at an atom.
#[derive(Clone, Copy)]
pub struct LetterRequest {
    /// Counted from 0.
    pub atom: u32,
    pub letter: CentreLetter,
    /// By which wording of Rules 1b and 2 it is labelled.
    pub rules: Rules,
}

/// Why no mark gives a centre the asked letter.
#[derive(Clone, Copy)]
pub enum CentreRefusal {
    /// No centre is at the atom.
    NoCentre,
    /// The molecule is drawn in three dimensions.
    ThreeD,
    /// Two drawn ligands lie in one direction, or one at the centre.
    Coincident,
    /// No ligand's bond can be marked.
    NoBond,
    /// A digraph is larger than the bound.
    Over,
    /// Two ligands tie.
    Tie,
    /// The centre has a small letter and a capital one is asked, or the other way round.
    OtherKind { small: bool },
}

/// A neighbour of a centre, and the mark of its bond, which has its narrow end at the centre.
#[derive(Clone, Copy)]
pub struct MarkedCentre {
    pub neighbour: u32,
    pub mark: Mark,
}
