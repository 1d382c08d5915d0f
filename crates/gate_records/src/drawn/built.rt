// Answers that rows write, with units of all kinds.
use cip_mol::{
    Cause, Descriptor, Label, Ligand, Ligands, Outcome, Places, ReadCause, ReadFault, Rule, Site,
};
use cip_print::{Answer, UnitAnswer, UnitAnswers, UnitName, name_of};
use std::alloc::{AllocError, Global};

/// The answer of a text: its units, a semicolon after each, or a refusal.
pub fn built(alloc: Global, text: &str) -> Result<Answer, AllocError> {
    if text == "refused" {
        return Ok(Answer::Refused(ReadFault {
            line: 7,
            cause: ReadCause::BondType,
        }));
    }
    let mut units = UnitAnswers::new(alloc);
    push_units(alloc, &mut units, text)?;
    Ok(Answer::Labelled(units))
}

fn push_units(alloc: Global, units: &mut UnitAnswers, text: &str) -> Result<(), AllocError> {
    for unit in text.split(';') {
        if !unit.is_empty() && units.len() < 100 {
            units.push(unit_in(alloc, unit))?;
        }
    }
    Ok(())
}

// A unit by its kind, its atoms, the ligands at its first end and at its last one, and its outcome, between commas. Atoms
// from 12 on aren't drawn.
fn unit_in(alloc: Global, text: &str) -> UnitAnswer {
    let (kind, rest) = halves(text, ',');
    let (atoms, rest) = halves(rest, ',');
    let (first, rest) = halves(rest, ',');
    let (second, outcome) = halves(rest, ',');
    let atoms = atoms_in(atoms);
    let first = ligands_in(alloc, first);
    let second = ligands_in(alloc, second);
    let site = site_of(kind, atoms, first, second);
    UnitAnswer {
        name: name_in(kind, atoms, &site),
        site,
        drawn: 12,
        outcome: outcome_in(alloc, outcome),
    }
}

// What is before a mark and after it.
fn halves(text: &str, mark: char) -> (&str, &str) {
    text.split_once(mark).unwrap_or((text, ""))
}

// The first atom, the last one, and one in the middle.
fn atoms_in(text: &str) -> (u32, u32, u32) {
    let (a, rest) = halves(text, ' ');
    let (b, middle) = halves(rest, ' ');
    (
        a.parse().unwrap_or(0),
        b.parse().unwrap_or(0),
        middle.parse().unwrap_or(0),
    )
}

// The site of a kind: `a` a centre, `b` a double bond, `c` a cumulene, `x` an allene, `t` a biaryl axis.
fn site_of(kind: &str, atoms: (u32, u32, u32), first: Ligands, second: Ligands) -> Site {
    let (a, b, middle) = atoms;
    match kind.as_bytes() {
        [b'a'] => Site::Centre {
            at: a,
            ligands: first,
        },
        [b'b' | b'c'] => Site::Bond {
            a,
            b,
            first,
            second,
        },
        _ => Site::Axis {
            a,
            middle,
            b,
            first,
            second,
        },
    }
}

fn name_in(kind: &str, atoms: (u32, u32, u32), site: &Site) -> UnitName {
    match kind.as_bytes() {
        [b'c'] => UnitName::Cumulene(atoms.0, atoms.1),
        [b't'] => UnitName::Biaryl(atoms.1, atoms.0),
        _ => name_of(site),
    }
}

// Ligands by their numbers, and `:` for a lone pair.
fn ligands_in(alloc: Global, text: &str) -> Ligands {
    let mut ligands = Ligands::new(alloc);
    for word in text.split_whitespace() {
        if ligands.len() < 4 {
            ligands.push(ligand_in(word));
        }
    }
    ligands
}

fn ligand_in(word: &str) -> Ligand {
    match word.parse() {
        Ok(vertex) => Ligand::Vertex(vertex),
        Err(_) => Ligand::LonePair,
    }
}

fn outcome_in(alloc: Global, text: &str) -> Outcome {
    match text.as_bytes() {
        [b't', ..] => Outcome::Tie,
        [b'o', ..] => Outcome::Over,
        [b'E', b'i', ..] => Outcome::NoGeometry(Cause::Either),
        [b'R', b'e', ..] => Outcome::NoGeometry(Cause::Reentrant),
        _ => Outcome::Label(label_in(alloc, text)),
    }
}

// A label by its letter, its rule, the sphere and the order of the ligands.
fn label_in(alloc: Global, text: &str) -> Label {
    let (letter, rest) = halves(text, ' ');
    let (rule, rest) = halves(rest, ' ');
    let (sphere, order) = halves(rest, ' ');
    Label {
        letter: letter_in(letter),
        rule: if rule == "5" { Rule::R5 } else { Rule::R1a },
        sphere: sphere.parse().unwrap_or(0),
        order: order_in(alloc, order),
    }
}

fn letter_in(letter: &str) -> Descriptor {
    match letter.as_bytes() {
        [b'R'] => Descriptor::R,
        [b'S'] => Descriptor::S,
        [b's'] => Descriptor::SmallS,
        [b'Z'] => Descriptor::Z,
        [b'M'] => Descriptor::M,
        _ => Descriptor::P,
    }
}

fn order_in(alloc: Global, text: &str) -> Places {
    let mut order = Places::new(alloc);
    for word in text.split_whitespace() {
        if order.len() < 4 {
            order.push(word.parse().unwrap_or(0));
        }
    }
    order
}
