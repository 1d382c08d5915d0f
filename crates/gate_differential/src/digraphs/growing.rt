// How far digraphs of worked molecules are grown.
ghost use Rattle.std.specs.Prelude.{◌<◌, length};
ghost use Rattle.cip_arena.specs.Growth.{Holds};
ghost use Rattle.gate_differential.specs.Tables.{HaveRoom};

use crate::molecule_rows::molecules::Drawn;
use crate::molecule_rows::written::written;
use crate::tables::Tables;
use cip_arena::{Arena, Grown};
use cip_constitution::settle;
use cip_digraph::FlaggedUnits;
use cip_mol::{Cause, Geometry, Ligand, Ligands, Site, Unit};
use cip_rank::{Rules, Steps};
use gate_tables::{Row, Text};
use std::alloc::{AllocError, Global};
use std::sync::ledger::Ledger;

// More nodes than any digraph is given room for.
const MOST_NODES: u32 = 1_000_000;

/// How the ligands of atom 0 are settled within a bound, where the row has a unit at one atom or none, and what the arena
/// then holds.
pub fn settled<L: Ledger>(alloc: Global, out: &mut Text, row: &Row, steps: &mut Steps<L>) {
    let written = written(alloc, row);
    match &written {
        Ok(Some(drawn)) => settle_drawn(alloc, out, row, drawn, steps),
        Ok(None) => out.push_str("no molecule"),
        Err(_) => out.miss(),
    }
    // proof: dropped by a call, here and below, which is quicker to prove than the end of scope
    drop(written);
}

fn settle_drawn<L: Ledger>(
    alloc: Global,
    out: &mut Text,
    row: &Row,
    drawn: &Drawn,
    steps: &mut Steps<L>,
) {
    let Ok(units) = units_of(alloc, row.field(5)) else {
        return out.miss();
    };
    match FlaggedUnits::of(alloc, &units, drawn.graph.vertices().len() as u32) {
        Ok(key_or_zero) => settle_described(alloc, out, row, drawn, &key_or_zero, steps),
        Err(_) => out.miss(),
    }
}

// The unit at the atom that a field names, if it names one. Its geometry doesn't matter here.
fn units_of(alloc: Global, field: &str) -> Result<Vec<Unit>, AllocError> {
    let mut units = Vec::new(alloc);
    if let Ok(at) = field.parse() {
        let ligands = Ligands::new(alloc);
        units.push(Unit {
            site: Site::Centre { at, ligands },
            geometry: Geometry::Unknown(Cause::NoMark),
        })?;
    }
    Ok(units)
}

fn settle_described<L: Ledger>(
    alloc: Global,
    out: &mut Text,
    row: &Row,
    drawn: &Drawn,
    units: &FlaggedUnits<'_>,
    steps: &mut Steps<L>,
) {
    let bound = row.number(6);
    if drawn.graph.vertices().is_empty() || bound == 0 || bound > MOST_NODES {
        return out.push_str("out of range");
    }
    let ligands = ligands_of(alloc, row.field(4));
    let Ok(mut tables) = Tables::reserve(alloc, bound) else {
        return out.miss();
    };
    push_settled(out, drawn, &mut tables, units, &ligands, steps);
    // proof: dropped by a call; at the end of scope it takes minutes to prove
    drop(tables);
}

// Ligands by their vertices, the first four.
fn ligands_of(alloc: Global, vertices: &str) -> Ligands {
    let mut ligands = Ligands::new(alloc);
    for vertex in vertices.split_whitespace() {
        if ligands.len() < 4 {
            ligands.push(Ligand::Vertex(vertex.parse().unwrap_or(0)));
        }
    }
    ligands
}

fn push_settled<L: Ledger>(
    out: &mut Text,
    drawn: &Drawn,
    tables: &mut Tables,
    units: &FlaggedUnits<'_>,
    ligands: &Ligands,
    steps: &mut Steps<L>,
)
    requires room { HaveRoom tables.old }
    requires root { 0 < length drawn.now.graph.vertices }
{
    tables.arena.start(&drawn.graph, 0);
    let settled = settle(
        &mut tables.arena,
        &mut tables.work,
        &drawn.graph,
        &drawn.positions,
        units,
        ligands.as_slice(),
        Rules::Wording2013,
        steps,
    );
    write!(out, "{settled:?}, ");
    push_arena(out, &tables.arena)
}

fn push_arena(out: &mut Text, arena: &Arena) {
    let sphere = arena.sphere();
    let nodes = arena.len();
    write!(out, "sphere {sphere}, {nodes} nodes")
}

/// How many nodes each sphere of the digraph of atom 0 has.
pub fn spheres<L: Ledger>(alloc: Global, out: &mut Text, row: &Row, steps: &mut Steps<L>) {
    let written = written(alloc, row);
    match &written {
        Ok(Some(drawn)) => push_spheres(alloc, out, drawn, steps),
        Ok(None) => out.push_str("no molecule"),
        Err(_) => out.miss(),
    }
    drop(written);
}

fn push_spheres<L: Ledger>(alloc: Global, out: &mut Text, drawn: &Drawn, steps: &mut Steps<L>) {
    let Ok(mut arena) = Arena::reserve(alloc, 100) else {
        return out.miss();
    };
    arena.start(&drawn.graph, 0);
    out.push_number(1);
    push_grown(out, drawn, &mut arena, steps);
    drop(arena);
}

fn push_grown<L: Ledger>(out: &mut Text, drawn: &Drawn, arena: &mut Arena, steps: &mut Steps<L>)
    requires { Holds drawn.now.graph drawn.now.positions arena.old }
{
    for _ in 0..10 {
        if arena.grow(&drawn.graph, &drawn.positions, steps) != Grown::Grown {
            return;
        }
        out.push_number(i64::from(arena.len() - arena.first()));
    }
}
