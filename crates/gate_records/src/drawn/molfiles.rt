// Molfiles of both versions, which are read or refused.
use bstr::ByteSlice;
use cip_mol::{Atom, Molecule, ReadRefusal};
use cip_text::body_contents;
use cip_v2000::is_v3000;
use gate_tables::Text;
use std::alloc::Global;

// More bytes than any of the molfiles has.
const MOST_BYTES: usize = 1_000_000;

/// Why a text isn't a molfile of version 2000; nothing where it is one.
pub fn refusal_of_v2000(alloc: Global, out: &mut Text, text: &[u8]) {
    let read = read_v2000(alloc, text);
    push_refusal(out, &read)
}

/// The same of version 3000.
pub fn refusal_of_v3000(alloc: Global, out: &mut Text, text: &[u8]) {
    let read = read_v3000(alloc, text);
    push_refusal(out, &read)
}

fn push_refusal(out: &mut Text, read: &Result<Molecule, ReadRefusal>) {
    match read {
        Ok(_) => {}
        Err(refusal) => write!(out, "{refusal}"),
    }
}

/// The molecule of a text of version 2000; wanting memory stands also for a text of the other version.
pub fn read_v2000(alloc: Global, text: &[u8]) -> Result<Molecule, ReadRefusal> {
    let lines = body_contents(alloc, text)?;
    if is_v3000(&lines) || text.len() > MOST_BYTES {
        return Err(ReadRefusal::Memory);
    }
    cip_v2000::read(alloc, text)
}

fn read_v3000(alloc: Global, text: &[u8]) -> Result<Molecule, ReadRefusal> {
    if text.len() > MOST_BYTES {
        return Err(ReadRefusal::Memory);
    }
    cip_v3000::read(alloc, text)
}

/// The first atom of a text of version 2000, where either line end gives the same: atomic number, isotope, charge,
/// radical, valence mark.
pub fn first_atom(alloc: Global, out: &mut Text, text: &[u8]) {
    let mut again = Text::new(alloc);
    compare_first_atoms(alloc, out, text, &mut again)
}

fn compare_first_atoms(alloc: Global, out: &mut Text, text: &[u8], again: &mut Text) {
    push_first_atom(alloc, out, text);
    push_first_atom_with_returns(alloc, again, text);
    let again = again.as_str();
    if out.as_str() == again {
        return;
    }
    write!(out, ", and with other line ends {again}")
}

fn push_first_atom_with_returns(alloc: Global, out: &mut Text, text: &[u8]) {
    let Ok(returned) = text.replace(alloc, b"\n", b"\r\n") else {
        return out.miss();
    };
    push_first_atom(alloc, out, &returned)
}

fn push_first_atom(alloc: Global, out: &mut Text, text: &[u8]) {
    let read = read_v2000(alloc, text);
    push_first(out, &read)
}

fn push_first(out: &mut Text, read: &Result<Molecule, ReadRefusal>) {
    let Ok(molecule) = read else {
        return;
    };
    match molecule.atoms() {
        [] => {}
        [atom, ..] => push_atom(out, atom),
    }
}

fn push_atom(out: &mut Text, atom: &Atom) {
    out.push_number(i64::from(atom.z));
    out.push_number(i64::from(atom.isotope));
    out.push_number(i64::from(atom.charge));
    out.push_number(i64::from(atom.radical));
    out.push_number(i64::from(atom.valence_mark));
}

/// How many atoms and bonds a text of version 3000 has, and of its second atom: atomic number, isotope, charge, valence
/// mark.
pub fn second_atom(alloc: Global, out: &mut Text, text: &[u8]) {
    let read = read_v3000(alloc, text);
    push_second(out, &read)
}

fn push_second(out: &mut Text, read: &Result<Molecule, ReadRefusal>) {
    let Ok(molecule) = read else {
        return;
    };
    match molecule.atoms().get(1) {
        None => {}
        Some(atom) => push_counted(out, molecule, atom),
    }
}

fn push_counted(out: &mut Text, molecule: &Molecule, atom: &Atom) {
    let atoms = molecule.atoms().len();
    let bonds = molecule.bonds().len();
    write!(out, "{atoms} {bonds}");
    out.push_number(i64::from(atom.z));
    out.push_number(i64::from(atom.isotope));
    out.push_number(i64::from(atom.charge));
    out.push_number(i64::from(atom.valence_mark));
}
