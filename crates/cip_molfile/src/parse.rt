// The molecule of a record.
ghost use Rattle.std.specs.Prelude.{◌≡◌, ◌<◌, ◌-◌, ◌^◌, length};
ghost use Rattle.cip_text.specs.Slices.{texts};
ghost use Rattle.cip_ctfile.specs.Reading.{Gives};
ghost use Rattle.cip_molfile.specs.Molecules.{read_molecule};

use cip_mol::{Molecule, ReadRefusal};
use cip_v2000::is_v3000;
use std::alloc::Global;

/// The molecule of a record's lines before its terminator line, in either version. The record has no label items.
pub fn read_molecule(alloc: Global, lines: &[&[u8]]) -> Result<Molecule, ReadRefusal>
    requires { length lines.now < 2 ^ 32 - 1 }
    ensures { Gives (λ molecule. molecule) result (read_molecule (texts lines.now)) }
{
    if is_v3000(lines) {
        cip_v3000::read_lines(alloc, lines)
    } else {
        cip_v2000::read_lines(alloc, lines)
    }
}
