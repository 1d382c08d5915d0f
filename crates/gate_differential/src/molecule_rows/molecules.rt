// Molecules of records.
ghost use Rattle.std.specs.Prelude.{◌≡◌, IfOk};
ghost use Rattle.cip_digraph.specs.graph.DrawnGraph.{graph_of};

use cip_digraph::{Graph, Positions};
use cip_hydro::graph_of;
use cip_mancude::positions;
use cip_mol::{Molecule, ReadRefusal};
use cip_text::body_contents;
use cip_v2000::{is_v3000, read_lines};
use std::alloc::{AllocError, Global};

// In bytes.
const LONGEST: usize = 1_000_000;

/// A molecule's graph, and where its double bonds can be.
#[derive(Drop)]
pub struct Drawn {
    pub graph: Graph,
    pub positions: Positions,
}

/// What a molecule's drawing has.
pub fn drawn_of(alloc: Global, molecule: &Molecule) -> Result<Drawn, AllocError>
    ensures { IfOk result (λ drawn. drawn.graph ≡ graph_of molecule.now) }
{
    let graph = graph_of(alloc, molecule)?;
    let positions = positions(alloc, &graph)?;
    Ok(Drawn { graph, positions })
}

/// What a record of version V2000 draws; none where it is refused.
pub fn read_drawn(alloc: Global, bytes: &[u8]) -> Result<Option<Drawn>, AllocError> {
    let molecule = read_molecule(alloc, bytes)?;
    let drawn = drawn_if(alloc, &molecule);
    drop(molecule);
    drawn
}

/// What the drawing of a molecule has, if there is one.
pub fn drawn_if(alloc: Global, molecule: &Option<Molecule>) -> Result<Option<Drawn>, AllocError> {
    match molecule {
        Some(molecule) => Ok(Some(drawn_of(alloc, molecule)?)),
        None => Ok(None),
    }
}

/// The molecule of a record of version V2000; none where it is refused.
pub fn read_molecule(alloc: Global, bytes: &[u8]) -> Result<Option<Molecule>, AllocError> {
    let lines = body_contents(alloc, bytes)?;
    if bytes.len() > LONGEST || is_v3000(&lines) {
        return Ok(None);
    }
    match read_lines(alloc, &lines) {
        Ok(molecule) => Ok(Some(molecule)),
        Err(ReadRefusal::Memory) => Err(AllocError),
        Err(ReadRefusal::Fault(_)) => Ok(None),
    }
}

/// The first line of a record, which is its title.
pub fn title(bytes: &[u8]) -> &str {
    let line = match bytes.iter().position(|byte| *byte == b'\n') {
        Some(end) => &bytes[..end],
        None => bytes,
    };
    str::from_utf8(line).unwrap_or("no title")
}
