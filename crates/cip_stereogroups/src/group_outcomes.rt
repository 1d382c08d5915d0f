// Both outcomes of the centres of groups.
ghost use Rattle.std.specs.Prelude.{◌≡◌, ◌<◌, ◌^◌, ◌++◌, [], IfOk, OnOk, length};
ghost use Rattle.cip_digraph.specs.units.Inverted.{inverted};
ghost use Rattle.cip_stereogroups.specs.Outcomes.{IsTurned, both_by, outcome_at, turned_at, lines_of, lines_of_groups};

use crate::centre_index::CentreIndex;
use crate::groups::Group;
use crate::kinds::GroupKind;
use cip_digraph::Units;
use cip_label::{LabelContext, Labeller, RootRanker};
use cip_mol::Outcome;
use cip_rank::Steps;
use std::alloc::{AllocError, Global};
use std::marker::Brand;
use std::sync::ledger::{Blank, Ledger};

/// What is found of a centre: as it is drawn, and with the centres of its group turned.
#[derive(Drop)]
pub struct BothOutcomes {
    pub drawn: Outcome,
    pub turned: Outcome,
}

/// An atom of a group; it has no outcomes where it is no centre.
#[derive(Drop)]
pub struct GroupLine {
    pub kind: GroupKind,
    pub atom: u32,
    pub outcomes: Option<BothOutcomes>,
}

// The lines of the groups so far, with a counter of steps.
// proof: callers lend both, so no line drops them
#[derive(Drop)]
struct LineBuilder<L: Ledger> {
    lines: Vec<GroupLine>,
    steps: Steps<L>,
}

/// The atoms of all groups with both outcomes of each.
pub fn lines_of_groups<D: RootRanker>(
    alloc: Global,
    labeller: &mut Labeller<D>,
    setting: &LabelContext<'_>,
    units: &Units,
    groups: &[Group],
) -> Result<Vec<GroupLine>, AllocError>
    requires few { length setting.now.units < 2 ^ 32 }
    requires same { units.now ≡ setting.now.units }
    ensures lines { IfOk result (λ lines. lines.items ≡ lines_of_groups labeller.old setting.now groups.now) }
    ensures kept { labeller.new ≡ labeller.old }
{
    match CentreIndex::of(alloc, setting) {
        Ok(centres) => {
            count_lines::<D, Brand>(alloc, labeller, &centres, units, groups, Blank::new(1))
        }
        Err(error) => Err(error),
    }
}

// The same with a counter of steps.
fn count_lines<D: RootRanker, L: Ledger>(
    alloc: Global,
    labeller: &mut Labeller<D>,
    centres: &CentreIndex<'_>,
    units: &Units,
    groups: &[Group],
    blank: Blank,
) -> Result<Vec<GroupLine>, AllocError>
    requires name { blank.name ≡ L.name }
    requires parts { blank.parts ≡ L.parts }
    requires one { 0 < blank.parts }
    requires same { units.now ≡ centres.now.units }
    ensures lines { IfOk result (λ lines. lines.items ≡ lines_of_groups labeller.old centres.now groups.now) }
    ensures kept { labeller.new ≡ labeller.old }
{
    let mut output = LineBuilder {
        lines: Vec::new(alloc),
        steps: Steps::<L>::open(blank),
    };
    match copy_lines(alloc, labeller, centres, units, groups, &mut output) {
        Ok(()) => Ok(output.lines),
        Err(error) => Err(error),
    }
}

// The same after no lines, with a copy of the units.
fn copy_lines<D: RootRanker, L: Ledger>(
    alloc: Global,
    labeller: &mut Labeller<D>,
    centres: &CentreIndex<'_>,
    units: &Units,
    groups: &[Group],
    output: &mut LineBuilder<L>,
) -> Result<(), AllocError>
    requires same { units.now ≡ centres.now.units }
    requires none { output.old.lines.items ≡ [] }
    ensures lines { OnOk result (output.new.lines.items ≡ lines_of_groups labeller.old centres.now groups.now) }
    ensures kept { labeller.new ≡ labeller.old }
{
    match units.copy(alloc) {
        Ok(mut turned) => join_lines(alloc, labeller, centres, &mut turned, groups, output),
        Err(error) => Err(error),
    }
}

// The same with units that are turned for each group, and back.
fn join_lines<D: RootRanker, L: Ledger>(
    alloc: Global,
    labeller: &mut Labeller<D>,
    centres: &CentreIndex<'_>,
    units: &mut Units,
    groups: &[Group],
    output: &mut LineBuilder<L>,
) -> Result<(), AllocError>
    requires same { units.old ≡ centres.now.units }
    requires none { output.old.lines.items ≡ [] }
    ensures lines { OnOk result (output.new.lines.items ≡ lines_of_groups labeller.old centres.now groups.now) }
    ensures kept { labeller.new ≡ labeller.old }
{
    for group in groups {
        let Ok(()) = group_lines(alloc, labeller, centres, units, group, output) else {
            return Err(AllocError);
        };
    }
    Ok(())
}

// Puts the lines of a group after those before it. A group without atoms costs no labelling.
fn group_lines<D: RootRanker, L: Ledger>(
    alloc: Global,
    labeller: &mut Labeller<D>,
    centres: &CentreIndex<'_>,
    units: &mut Units,
    group: &Group,
    output: &mut LineBuilder<L>,
) -> Result<(), AllocError>
    requires same { units.old ≡ centres.now.units }
    ensures lines { OnOk result (output.new.lines.items
        ≡ output.old.lines.items ++ lines_of labeller.old centres.now group.now) }
    ensures back { OnOk result (units.new ≡ units.old) }
    ensures kept { labeller.new ≡ labeller.old }
{
    let atoms = group.atoms.as_slice();
    if atoms.is_empty() {
        Ok(())
    } else {
        units.invert(atoms);
        let put = turned_lines(alloc, labeller, centres, units, group, output);
        units.invert(atoms);
        put
    }
}

fn turned_lines<D: RootRanker, L: Ledger>(
    alloc: Global,
    labeller: &mut Labeller<D>,
    centres: &CentreIndex<'_>,
    units: &Units,
    group: &Group,
    output: &mut LineBuilder<L>,
) -> Result<(), AllocError>
    requires turned { units.now ≡ inverted group.now.atoms centres.now.units }
    ensures lines { OnOk result (output.new.lines.items
        ≡ output.old.lines.items ++ lines_of labeller.old centres.now group.now) }
    ensures kept { labeller.new ≡ labeller.old }
{
    let setting = centres.setting();
    match LabelContext::new(
        alloc,
        setting.graph(),
        setting.positions(),
        units.list(),
        setting.rules(),
    ) {
        Ok(turned) => atom_lines(alloc, labeller, centres, &turned, group, output),
        Err(error) => Err(error),
    }
}

fn atom_lines<D: RootRanker, L: Ledger>(
    alloc: Global,
    labeller: &mut Labeller<D>,
    centres: &CentreIndex<'_>,
    turned: &LabelContext<'_>,
    group: &Group,
    output: &mut LineBuilder<L>,
) -> Result<(), AllocError>
    requires turned { turned.now ≡ turned_at group.now.atoms centres.now }
    ensures lines { OnOk result (output.new.lines.items
        ≡ output.old.lines.items ++ lines_of labeller.old centres.now group.now) }
    ensures kept { labeller.new ≡ labeller.old }
{
    for atom in group.atoms.as_slice() {
        let Ok(outcomes) = both_at(alloc, labeller, centres, turned, *atom, &mut output.steps)
        else {
            return Err(AllocError);
        };
        let line = GroupLine {
            kind: group.kind,
            atom: *atom,
            outcomes,
        };
        let Ok(()) = output.lines.push(line) else {
            return Err(AllocError);
        };
    }
    Ok(())
}

// What is found of the centre at an atom, where there is one.
fn both_at<D: RootRanker, L: Ledger>(
    alloc: Global,
    labeller: &mut Labeller<D>,
    centres: &CentreIndex<'_>,
    turned: &LabelContext<'_>,
    atom: u32,
    steps: &mut Steps<L>,
) -> Result<Option<BothOutcomes>, AllocError>
    requires turned { IsTurned centres.now turned.now }
    ensures both { IfOk result (λ found. found
        ≡ both_by (outcome_at labeller.old centres.now atom) (outcome_at labeller.old turned.now atom)) }
    ensures kept { labeller.new ≡ labeller.old }
{
    match centres.place(atom) {
        Some(place) => {
            let Ok(drawn) = labeller.label(alloc, centres.setting(), place, steps) else {
                return Err(AllocError);
            };
            match labeller.label(alloc, turned, place, steps) {
                Ok(turned) => Ok(Some(BothOutcomes { drawn, turned })),
                Err(error) => Err(error),
            }
        }
        None => Ok(None),
    }
}
