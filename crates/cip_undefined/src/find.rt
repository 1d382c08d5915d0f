// The undefined units of a setting.
ghost use Rattle.std.specs.Prelude.{◌≡◌, ◌++◌, IfOk, OnOk};
ghost use Rattle.std.specs.List.{flat_map};
ghost use Rattle.cip_label.specs.Fitting.{AreFit, IsFitSite};
ghost use Rattle.cip_undefined.specs.UndefinedUnits.{found_among, found_at, is_undefined, state_of};

use crate::unit::{State, UndefinedUnit};
use cip_label::{LabelContext, Labeller, RootRanker};
use cip_mol::{Cause, Geometry, Outcome, Sense, Unit};
use cip_print::name_of;
use cip_rank::Steps;
use std::alloc::{AllocError, Global};
use std::sync::ledger::Ledger;

/// The undefined ones among units of a setting, as far as their own ligands decide it.
pub(crate) fn found_among<D: RootRanker, L: Ledger>(
    alloc: Global,
    labeller: &mut Labeller<D>,
    setting: &LabelContext<'_>,
    units: &[Unit],
    steps: &mut Steps<L>,
) -> Result<Vec<UndefinedUnit>, AllocError>
    requires fit { AreFit setting.now.graph units.now }
    ensures found { IfOk result (λ found. found.items ≡ found_among setting.now labeller.old units.now) }
    ensures kept { labeller.new ≡ labeller.old }
{
    let mut found = Vec::new(alloc);
    for unit in units {
        push_found(alloc, labeller, setting, unit, steps, &mut found)?;
    }
    Ok(found)
}

// Adds a unit if it is undefined.
fn push_found<D: RootRanker, L: Ledger>(
    alloc: Global,
    labeller: &mut Labeller<D>,
    setting: &LabelContext<'_>,
    unit: &Unit,
    steps: &mut Steps<L>,
    found: &mut Vec<UndefinedUnit>,
) -> Result<(), AllocError>
    requires fit { IsFitSite setting.now.graph unit.now.site }
    ensures pushed { OnOk result (found.new.items ≡ found.old.items ++ found_at setting.now labeller.old unit.now) }
    ensures kept { labeller.new ≡ labeller.old }
{
    if is_undefined(unit.geometry) {
        let outcome = labeller.label_site(alloc, setting, &unit.site, Sense::Plus, steps)?;
        found.push(UndefinedUnit {
            name: name_of(&unit.site),
            site: unit.site.copy(),
            drawn: setting.graph().drawn(),
            state: state_of(outcome),
        })?;
    }
    Ok(())
}

fn is_undefined(geometry: Geometry) -> bool
    ensures { result ≡ is_undefined geometry }
{
    matches!(geometry, Geometry::Unknown(Cause::NoMark | Cause::Either))
}

// What is found with a known sense is a label, a tie or the bound.
fn state_of(outcome: Outcome) -> State
    ensures { result ≡ state_of outcome }
{
    match outcome {
        Outcome::Label(label) => State::Open {
            rule: label.rule,
            sphere: label.sphere,
            order: label.order,
        },
        Outcome::Tie => State::Tie,
        Outcome::Over | Outcome::NoGeometry(_) => State::Over,
    }
}
