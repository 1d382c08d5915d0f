// The counts line.
ghost use Rattle.std.specs.Prelude.{◌≡◌, ◌≤◌, IfOk};
ghost use Rattle.cip_v2000.specs.CountsLine.{counts_of};

use crate::version::is_v2000;
use cip_ctfile::number;
use cip_mol::ReadCause;
use cip_text::columns;

/// How many atoms and bonds follow.
#[derive(Clone, Copy)]
pub struct CountsLine {
    pub atoms: u32,
    pub bonds: u32,
}

/// What a counts line says.
#[tactic(auto, unfolding(crate::specs::CountsLine::counts_of))]
pub fn counts_in(line: &[u8]) -> Result<CountsLine, ReadCause>
    ensures value { result ≡ counts_of line.now }
    ensures range { IfOk result (λ counts. (counts.atoms ≤ 999) × (counts.bonds ≤ 999)) }
{
    if is_v2000(line) {
        match (
            number(999, columns(line, 1, 3)),
            number(999, columns(line, 4, 6)),
        ) {
            (Some(atoms), Some(bonds)) => Ok(CountsLine { atoms, bonds }),
            _ => Err(ReadCause::Counts),
        }
    } else {
        Err(ReadCause::Version)
    }
}
