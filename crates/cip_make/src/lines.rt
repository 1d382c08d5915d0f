// Lines of V2000 records.
ghost use Rattle.std.specs.Prelude.{◌≡◌, ◌++◌, OnOk};
ghost use Rattle.cip_text.specs.Writing.{coordinate, right};
ghost use Rattle.cip_make.specs.Lines.{symbol, stereo_number, number_field, counts_line, atom_line, bond_line};

use crate::chain::{Element, Stereo};
use cip_text::{coordinate, push_right_aligned};
use std::alloc::{AllocError, Global};

/// Adds the counts line of a molecule with n atoms and bonds.
#[tactic(auto, unfolding(crate::specs::Lines::counts_line))]
pub fn push_counts_line(
    alloc: Global,
    text: &mut Vec<u8>,
    atoms: u32,
    bonds: u32,
) -> Result<(), AllocError>
    ensures { OnOk result (text.new.items ≡ text.old.items ++ counts_line atoms bonds) }
{
    let Ok(()) = push_number(alloc, text, atoms) else {
        return Err(AllocError);
    };
    match push_number(alloc, text, bonds) {
        Ok(()) => text.extend_from_slice(b"  0  0  0  0  0  0  0  0999 V2000\n"),
        Err(error) => Err(error),
    }
}

/// Adds the line of an atom in the plane, by its coordinates in ten-thousandths of an ångström.
#[tactic(auto, unfolding(crate::specs::Lines::atom_line))]
pub fn push_atom_line(
    alloc: Global,
    text: &mut Vec<u8>,
    x: i64,
    y: i64,
    element: Element,
) -> Result<(), AllocError>
    ensures { OnOk result (text.new.items ≡ text.old.items ++ atom_line x y element) }
{
    let Ok(()) = push_coordinate(alloc, text, x) else {
        return Err(AllocError);
    };
    let Ok(()) = push_coordinate(alloc, text, y) else {
        return Err(AllocError);
    };
    let Ok(()) = push_coordinate(alloc, text, 0) else {
        return Err(AllocError);
    };
    let Ok(()) = text.extend_from_slice(symbol(element)) else {
        return Err(AllocError);
    };
    let Ok(()) = text.extend_from_slice(b" 0  0  0  0  0  0  0  0  0  0  0  0\n") else {
        return Err(AllocError);
    };
    Ok(())
}

/// Adds the line of a single bond between two atoms, counted from 1.
#[tactic(auto, unfolding(crate::specs::Lines::bond_line))]
pub fn push_bond_line(
    alloc: Global,
    text: &mut Vec<u8>,
    first: u32,
    second: u32,
    stereo: Stereo,
) -> Result<(), AllocError>
    ensures { OnOk result (text.new.items ≡ text.old.items ++ bond_line first second stereo) }
{
    let Ok(()) = push_number(alloc, text, first) else {
        return Err(AllocError);
    };
    let Ok(()) = push_number(alloc, text, second) else {
        return Err(AllocError);
    };
    let Ok(()) = push_number(alloc, text, 1) else {
        return Err(AllocError);
    };
    match push_number(alloc, text, stereo_number(stereo)) {
        Ok(()) => text.extend_from_slice(b"\n"),
        Err(error) => Err(error),
    }
}

// Adds a number, right in three columns.
fn push_number(alloc: Global, line: &mut Vec<u8>, number: u32) -> Result<(), AllocError>
    ensures { OnOk result (line.new.items ≡ line.old.items ++ number_field number) }
{
    match format!(in alloc; "{number}") {
        Ok(text) => push_right_aligned(line, 3, text.as_bytes()),
        Err(error) => Err(error),
    }
}

// Adds a coordinate, right in ten columns.
fn push_coordinate(alloc: Global, line: &mut Vec<u8>, value: i64) -> Result<(), AllocError>
    ensures { OnOk result (line.new.items ≡ line.old.items ++ right 10 (coordinate value)) }
{
    match coordinate(alloc, value) {
        Ok(text) => push_right_aligned(line, 10, text.as_bytes()),
        Err(error) => Err(error),
    }
}

fn symbol(element: Element) -> &'static [u8]
    ensures { result.now ≡ symbol element }
{
    match element {
        Element::Carbon => b" C  ".as_slice(),
        Element::Oxygen => b" O  ".as_slice(),
        Element::Nitrogen => b" N  ".as_slice(),
        Element::Chlorine => b" Cl ".as_slice(),
        Element::Bromine => b" Br ".as_slice(),
        Element::Fluorine => b" F  ".as_slice(),
    }
}

fn stereo_number(stereo: Stereo) -> u32
    ensures { result ≡ stereo_number stereo }
{
    match stereo {
        Stereo::Plain => 0,
        Stereo::Up => 1,
        Stereo::Down => 6,
    }
}
