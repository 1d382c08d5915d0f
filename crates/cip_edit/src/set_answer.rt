// The record in which a centre has a letter, or why there is none.

use cip_mol::ReadFault;
use cip_text::Bytes;
use std::fmt;

/// The record in which a centre has the asked letter, or why there is none.
#[derive(Drop)]
pub enum SetAnswer {
    Written(Bytes),
    Refused(SetRefusal),
}

/// Why no record is written in which a centre has the asked letter.
#[derive(Clone, Copy)]
pub enum SetRefusal {
    /// The record gives no molecule.
    Grammar(ReadFault),
    /// The record is V3000.
    OnlyV2000,
    /// No centre is at the atom.
    NoCentre,
    /// Some z isn't 0.
    ThreeD,
    /// Two drawn ligands lie in one direction, or one at the centre.
    Coincident,
    /// No ligand's bond can be marked.
    NoBond,
    /// A digraph of the centre is larger than the bound.
    Over,
    /// Two ligands of the centre tie.
    Tie,
    /// The centre has a small letter, as `small` says, and a capital one is asked, or the other way round.
    OtherKind { small: bool },
}

impl fmt::Display for SetRefusal {
    ghost use Rattle.std.specs.Prelude.{Some};
    ghost use Rattle.cip_edit.specs.RefusalNames.{refusal_name};

    ghost output = { λ refusal. Some (refusal_name refusal) };

    fn fmt<W: fmt::Write>(&self, f: &mut fmt::Formatter<W>) -> fmt::Result {
        f.write_str(match self {
            SetRefusal::Grammar(_) => "Grammar",
            SetRefusal::OnlyV2000 => "OnlyV2000",
            SetRefusal::NoCentre => "NoCentre",
            SetRefusal::ThreeD => "ThreeD",
            SetRefusal::Coincident => "Coincident",
            SetRefusal::NoBond => "NoBond",
            SetRefusal::Over => "Over",
            SetRefusal::Tie => "Tie",
            SetRefusal::OtherKind { .. } => "OtherKind",
        })
    }
}
