// How labels are written.
ghost use Rattle.std.specs.Prelude.{◌≡◌, ◌++◌, OnOk, codes, slice_get};
ghost use Rattle.cip_print.specs.Naming.{name_text};
ghost use Rattle.cip_print.specs.Labels.{ligand_name, spaced_name, names_at, names_of_ends, names_in_order, decision_text, ordered_label};

use crate::answer::UnitAnswer;
use crate::numbers::{push_number, push_word};
use crate::unit_name::{UnitName, push_atom, push_name};
use cip_mol::{Label, Ligand, Site};
use std::alloc::AllocError;

/// Adds the name of a unit, and a word.
pub fn push_named_unit(text: &mut Vec<u8>, name: UnitName, word: &str) -> Result<(), AllocError>
    ensures { OnOk result (text.new.items ≡ text.old.items ++ (name_text name ++ (codes " " ++ word.now))) }
{
    match push_name(text, name) {
        Ok(()) => push_word(text, word),
        Err(error) => Err(error),
    }
}

/// Adds a label with the ligands in the order that it rests on.
pub fn push_label(text: &mut Vec<u8>, unit: &UnitAnswer, label: &Label) -> Result<(), AllocError>
    ensures { OnOk result (text.new.items ≡ text.old.items ++ ordered_label unit.now label.now) }
{
    let Ok(()) = push_name(text, unit.name) else {
        return Err(AllocError);
    };
    match push_decision(text, label) {
        Ok(()) => match text.extend_from_slice(b" order") {
            Ok(()) => push_names_in_order(text, unit.drawn, &unit.site, label.order.as_slice()),
            Err(error) => Err(error),
        },
        Err(error) => Err(error),
    }
}

// The descriptor, the rule and the sphere, a space before each.
fn push_decision(text: &mut Vec<u8>, label: &Label) -> Result<(), AllocError>
    ensures { OnOk result (text.new.items ≡ text.old.items ++ decision_text label.now) }
{
    let Ok(()) = push_word(text, label.letter.text()) else {
        return Err(AllocError);
    };
    match push_word(text, label.rule.text()) {
        Ok(()) => match text.push(b' ') {
            Ok(()) => push_number(text, u64::from(label.sphere)),
            Err(_) => Err(AllocError),
        },
        Err(error) => Err(error),
    }
}

/// Adds the ligands of a site at these places, a space before each; a bar between two ends.
pub fn push_names_in_order(
    text: &mut Vec<u8>,
    drawn: u32,
    site: &Site,
    places: &[u32],
) -> Result<(), AllocError>
    ensures { OnOk result (text.new.items ≡ text.old.items ++ names_in_order drawn site.now places.now) }
{
    match site {
        Site::Centre { ligands, .. } => push_names(text, drawn, ligands.as_slice(), places),
        Site::Bond { first, second, .. } | Site::Axis { first, second, .. } => {
            push_ends(text, drawn, first.as_slice(), second.as_slice(), places)
        }
    }
}

#[tactic(auto, unfolding(crate::specs::Labels::names_of_ends), using(crate::proofs::lemmas::Texts::moved))]
fn push_ends(
    text: &mut Vec<u8>,
    drawn: u32,
    first: &[Ligand],
    second: &[Ligand],
    places: &[u32],
) -> Result<(), AllocError>
    ensures { OnOk result (text.new.items ≡ text.old.items ++ names_of_ends drawn first.now second.now places.now) }
{
    let behind = first.len().min(places.len());
    match push_names(text, drawn, first, &places[..behind]) {
        Ok(()) => match text.extend_from_slice(b" |") {
            Ok(()) => push_names(text, drawn, second, &places[behind..]),
            Err(error) => Err(error),
        },
        Err(error) => Err(error),
    }
}

// The ligands at these places, a space before each.
#[tactic(auto, using(crate::proofs::lemmas::Texts::moved))]
fn push_names(
    text: &mut Vec<u8>,
    drawn: u32,
    ligands: &[Ligand],
    places: &[u32],
) -> Result<(), AllocError>
    ensures { OnOk result (text.new.items ≡ text.old.items ++ names_at drawn ligands.now places.now) }
{
    for place in places {
        let Ok(()) = push_name_at(text, drawn, ligands, *place) else {
            return Err(AllocError);
        };
    }
    Ok(())
}

// The ligand at a place with a space before it; nothing where no ligand is there.
fn push_name_at(
    text: &mut Vec<u8>,
    drawn: u32,
    ligands: &[Ligand],
    place: u32,
) -> Result<(), AllocError>
    ensures { OnOk result (text.new.items ≡ text.old.items ++ spaced_name drawn (slice_get ligands.now place)) }
{
    match ligands.get(place as usize) {
        Some(ligand) => push_ligand(text, drawn, *ligand),
        None => Ok(()),
    }
}

#[tactic(auto, using(crate::proofs::lemmas::Texts::moved))]
fn push_ligand(text: &mut Vec<u8>, drawn: u32, ligand: Ligand) -> Result<(), AllocError>
    ensures { OnOk result (text.new.items ≡ text.old.items ++ (codes " " ++ ligand_name drawn ligand)) }
{
    match ligand {
        Ligand::Vertex(vertex) if vertex < drawn => {
            match text.push(b' ') {
                Ok(()) => push_atom(text, vertex),
                Err(_) => Err(AllocError),
            }
        }
        Ligand::Vertex(_) => push_word(text, "H"),
        Ligand::LonePair => push_word(text, ":"),
    }
}
