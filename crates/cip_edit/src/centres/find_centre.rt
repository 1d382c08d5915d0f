// What is found of a centre.
ghost use Rattle.std.specs.Prelude.{◌≡◌, ◌<◌, true, IfOk, Some, length, slice_get};
ghost use Rattle.std.specs.List.{position};
ghost use Rattle.cip_mol.specs.declared.site.Unit as units;
ghost use Rattle.cip_digraph.specs.units.DrawnUnits.{units_in};
ghost use Rattle.cip_label.specs.Settings.{outcome_in, setting_in};
ghost use Rattle.cip_edit.specs.FoundCentres.{found_at, is_centre_at};
ghost use Rattle.cip_edit.specs.Marking.{has_centre};

use cip_label::{LabelContext, Labeller, RootRanker};
use cip_mol::{Outcome, Site, Unit};
use cip_molfile::Structure;
use cip_rank::{Rules, Steps};
use std::alloc::{AllocError, Global};
use std::marker::Brand;
use std::sync::ledger::{Blank, Ledger};

/// The place of the centre at an atom among units.
pub fn centre_place(units: &[Unit], atom: u32) -> Option<usize>
    ensures { result ≡ position (is_centre_at atom) units.now }
{
    units.iter().position(|unit| is_centre_at(unit, atom))
}

fn is_centre_at(unit: &Unit, atom: u32) -> bool
    ensures { result ≡ is_centre_at atom unit.now }
{
    match &unit.site {
        Site::Centre { at, .. } => *at == atom,
        _ => false,
    }
}

/// What is found of the centre at an atom.
pub fn find_centre<D: RootRanker>(
    alloc: Global,
    labeller: &mut Labeller<D>,
    drawn: &Structure,
    atom: u32,
    rules: Rules,
) -> Result<Outcome, AllocError>
    requires { has_centre drawn.now atom ≡ true }
    ensures found { IfOk result (λ outcome. outcome ≡ found_at rules labeller.old drawn.now atom) }
    ensures kept { labeller.new ≡ labeller.old }
{
    match centre_place(drawn.units().list(), atom) {
        Some(place) => find_at(alloc, labeller, drawn, place as u32, rules),
        None => unreachable!(),
    }
}

// What is found of the unit at a place.
fn find_at<D: RootRanker>(
    alloc: Global,
    labeller: &mut Labeller<D>,
    drawn: &Structure,
    place: u32,
    rules: Rules,
) -> Result<Outcome, AllocError>
    requires place { place < length (units_in drawn.now) }
    ensures outcome { IfOk result (λ outcome. (u : units.Unit) → slice_get (units_in drawn.now) place ≡ Some u →
        outcome ≡ outcome_in (setting_in rules drawn.now) labeller.old u) }
    ensures kept { labeller.new ≡ labeller.old }
{
    let units = drawn.units().list();
    let Ok(setting) = LabelContext::new(alloc, drawn.graph(), drawn.positions(), units, rules)
    else {
        return Err(AllocError);
    };
    label_counted::<D, Brand>(alloc, labeller, &setting, place, Blank::new(1))
}

// With a counter of steps.
fn label_counted<D: RootRanker, L: Ledger>(
    alloc: Global,
    labeller: &mut Labeller<D>,
    setting: &LabelContext<'_>,
    place: u32,
    blank: Blank,
) -> Result<Outcome, AllocError>
    requires name { blank.name ≡ L.name }
    requires parts { blank.parts ≡ L.parts }
    requires one { 0 < blank.parts }
    requires place { place < length setting.now.units }
    ensures outcome { IfOk result (λ outcome. (u : units.Unit) → slice_get setting.now.units place ≡ Some u →
        outcome ≡ outcome_in setting.now labeller.old u) }
    ensures kept { labeller.new ≡ labeller.old }
{
    let mut steps = Steps::<L>::open(blank);
    labeller.label(alloc, setting, place, &mut steps)
}
